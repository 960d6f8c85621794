//! Laws of the expansion: facts about the definitions alone.

ghost use Rattle.ecd_expansion.specs.Laws.{HasOneFirst, HasOneShape, NeverBoth, OneOfBoth, StepsGrow, StepsShowSoon};

/// A root has at most one shape and at most one first fault, never both, and, where it is known which leads are groups, one of them.
pub fn one_shape_or_first_fault()
    ensures fault { HasOneFirst }
    ensures shape { HasOneShape }
    ensures never { NeverBoth }
    ensures always { OneOfBoth }
{}

/// More levels have no fewer steps, and whether there are more than 4,096 shows within 4,097 levels.
pub fn steps_by_levels()
    ensures grow { StepsGrow }
    ensures soon { StepsShowSoon }
{}
