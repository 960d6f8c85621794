//! Laws of values and shapes: facts about the definitions alone.

ghost use Rattle.ecd_core.specs.Laws.{AltGives, AnyTagGives, ArrayGives, CborGives, ChoiceGives, FieldMeans, HasOneItem, HasOneKey, ManyGives, MapGives, OneGives, OptGives, PickMeans, TableMeans, TagGives};
ghost use Rattle.ecd_core.specs.Owners.{FieldOwns, GivenOut, OwnersExist, PickOwns, TableOwns};
ghost use Rattle.ecd_core.specs.Runs.{FirstRun, ManyByRuns, NoRuns, PartsInTwo};
ghost use Rattle.ecd_core.specs.Walks.{NestNoDeeper, StandTogether};
ghost use Rattle.ecd_core.specs.Ways.{FirstTaken, FitsBySome, LaterTaken, NoneLeavesOut, TakenDecides};

/// A value belongs to at most one item of a shape.
pub fn one_item_of_a_value()
    ensures { HasOneItem }
{}

/// The nodes of a shape are numbered so that those inside a node follow it without a gap; no more lie inside each other than there are.
pub fn nodes_of_a_shape()
    ensures together { StandTogether }
    ensures nesting { NestNoDeeper }
{}

/// The relation of item and value, kind by kind, part by part and entry by entry, over the lists that a shape holds.
pub fn values_over_lists()
    ensures tag { TagGives }
    ensures any_tag { AnyTagGives }
    ensures cbor { CborGives }
    ensures choice { ChoiceGives }
    ensures array { ArrayGives }
    ensures pairs { MapGives }
    ensures one { OneGives }
    ensures opt { OptGives }
    ensures many { ManyGives }
    ensures alt { AltGives }
    ensures field { FieldMeans }
    ensures pick { PickMeans }
    ensures table { TableMeans }
{}

/// The parts of an array one after another: some parts and then others, and the bodies of a part that has many.
pub fn items_part_by_part()
    ensures parts { PartsInTwo }
    ensures many { ManyByRuns }
    ensures none { NoRuns }
    ensures first { FirstRun }
{}

/// The key of a field is the one item that has a value under its key's shape.
pub fn one_key_of_a_field()
    ensures { HasOneKey }
{}

/// Fields that fit, and picks by their ways: which way is taken, and that it decides which pairs the pick takes and blocks, and its value.
pub fn picks_by_their_ways()
    ensures fits { FitsBySome }
    ensures first { FirstTaken }
    ensures later { LaterTaken }
    ensures taken { TakenDecides }
    ensures none { NoneLeavesOut }
{}

/// A map has values exactly where its pairs have owners: each pair that no field takes is owned by the entry in whose list it stands.
pub fn maps_by_owners()
    ensures given_out { GivenOut }
    ensures owners_exist { OwnersExist }
    ensures field { FieldOwns }
    ensures pick { PickOwns }
    ensures table { TableOwns }
{}
