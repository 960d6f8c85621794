//! Laws of shapes that keep the rules: facts about the definitions alone.

ghost use Rattle.ecd_one_value.specs.Laws.{HasOneValue};
ghost use Rattle.ecd_one_value.specs.Splits.{BeginWithStart, EmptyMayBe, MayFollow, NoneWhereAbsent, PartsSplitOnce, StartsDiffer};
ghost use Rattle.ecd_one_value.specs.Tables.{OneTableOfKey, SameLists, StandsByKey, StandsInTableOfKey};

/// A shape that keeps the rules gives each item at most one value.
pub fn one_value_of_an_item()
    ensures { HasOneValue }
{}

/// The parts of an array that keep the rules have one split. What their items begin with, when they are empty, what may follow, and when a body is not absent.
pub fn splits_of_an_array()
    ensures once { PartsSplitOnce }
    ensures begin { BeginWithStart }
    ensures empty { EmptyMayBe }
    ensures follow { MayFollow }
    ensures absent { NoneWhereAbsent }
    ensures differ { StartsDiffer }
{}

/// A pair that no field takes stands in the one table whose keys' shape gives its key a value, in each reading of the map.
pub fn tables_of_a_map()
    ensures one { OneTableOfKey }
    ensures by_key { StandsByKey }
    ensures of_key { StandsInTableOfKey }
    ensures lists { SameLists }
{}
