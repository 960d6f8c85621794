//! Facts about the definitions alone, each the contract of a function that does nothing.

ghost use Rattle.ecd_ceval.specs.Laws.{NumbersMeanNames};

/// In a valid program the function of an item number does what its name means in the whole program.
pub fn numbers_mean_names()
    ensures { NumbersMeanNames }
{}
