//! Laws of maps and their values: facts about the definitions alone.

ghost use Rattle.ecd_map_laws.specs.Counts.{NumberIsTold, PickCounts, PresentCounts, TableCounts};
ghost use Rattle.ecd_map_laws.specs.Entries.{FieldSays, PickSays, TableSays};
ghost use Rattle.ecd_map_laws.specs.Existence.{HasValues, NumberIsOne, OneMoreCounts};
ghost use Rattle.ecd_map_laws.specs.Tables.{KeyHasOneTable, MergeInOneWay, OwnerIsTable, PairHasOneTable};
ghost use Rattle.ecd_map_laws.specs.Taken.{TakenByKey, TakenIsThere};
ghost use Rattle.ecd_map_laws.specs.Valid.{ValuedIsValid};

/// A field takes a pair exactly where its key is one of the taken keys, which the values tell; each taken key is there.
pub fn pairs_by_taken_keys()
    ensures by_key { TakenByKey }
    ensures there { TakenIsThere }
{}

/// Under the rules a pair that no field takes stands in the list of exactly the table whose key's shape gives its key a value; its owner is that table. What
/// fields take and what stands in lists merge in one way.
pub fn pairs_by_tables()
    ensures pair { PairHasOneTable }
    ensures key { KeyHasOneTable }
    ensures owner { OwnerIsTable }
    ensures merge { MergeInOneWay }
{}

/// Under the rules the values of a map tell how many pairs it has; what present fields, picks and tables count.
pub fn number_of_pairs()
    ensures told { NumberIsTold }
    ensures present { PresentCounts }
    ensures pick { PickCounts }
    ensures table { TableCounts }
{}

/// Under the rules a map has values exactly where its needed fields and picks have theirs, each other pair goes to a table, unblocked, and each table has as
/// many pairs as its bounds allow. Such numbers are counted pair by pair.
pub fn maps_with_values()
    ensures values { HasValues }
    ensures one { NumberIsOne }
    ensures more { OneMoreCounts }
{}

/// An item that has a value is valid where its encoding is shorter than 2^63 bytes.
pub fn items_with_values_are_valid()
    ensures { ValuedIsValid }
{}

/// What the words of the laws above say of a field, a pick and a table of the source.
pub fn words_for_entries()
    ensures field { FieldSays }
    ensures pick { PickSays }
    ensures table { TableSays }
{}
