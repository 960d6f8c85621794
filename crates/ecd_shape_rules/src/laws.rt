//! Laws of the rules: facts about the definitions alone.

ghost use Rattle.ecd_shape_rules.specs.Laws.{AlikeGiveTheSame, IsAlikeItself, KeepingBreaksNone, KeepingHasDifferentKeys};
ghost use Rattle.ecd_shape_rules.specs.Listed.{StartsOverLists};
ghost use Rattle.ecd_shape_rules.specs.OverLists.{EntriesDemand, PartsDemand, ShapesDemand};

/// Where the rules are kept, the fields of each map that may be taken at once have different keys.
pub fn keys_differ_where_the_rules_are_kept()
    ensures { KeepingHasDifferentKeys }
{}

/// A shape that keeps the rules breaks none.
pub fn kept_rules_are_not_broken()
    ensures { KeepingBreaksNone }
{}

/// Shapes that are equal but for their places give the same values, and a shape is such a one of itself.
pub fn alike_shapes_give_the_same()
    ensures itself { IsAlikeItself }
    ensures values { AlikeGiveTheSame }
{}

/// What a part may begin with, and whether it may be empty, over the lists that it holds.
pub fn starts_over_lists()
    ensures { StartsOverLists }
{}

/// What shapes, parts and entries demand, over the lists that they hold.
pub fn demands_over_lists()
    ensures shapes { ShapesDemand }
    ensures parts { PartsDemand }
    ensures entries { EntriesDemand }
{}
