//! The order of keys is a total order. Facts about the definitions alone.

ghost use Rattle.ecd_keyorder.specs.Laws.{EqualIsSame, SwapsAround, IsTransitive};

/// Two encodings compare as equal exactly where they are the same.
pub fn equal_exactly_where_the_same()
    ensures { EqualIsSame }
{}

/// The other way round the answer is turned round.
pub fn swapped_encodings_compare_the_other_way()
    ensures { SwapsAround }
{}

/// The order is transitive.
pub fn before_what_is_before()
    ensures { IsTransitive }
{}
