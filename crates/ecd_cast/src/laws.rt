//! Facts about the rules alone, each the contract of a function that does nothing.

ghost use Rattle.ecd_cast.specs.Laws.{ValidityIsKept, FirstFault};

/// Items behind an item change nothing of its validity.
pub fn items_behind()
    ensures validity { ValidityIsKept }
{}

/// A program that breaks no rule has no first fault, every other one has one, and no program has two.
pub fn first_fault()
    ensures { FirstFault }
{}
