//! Facts about emitted functions, each the contract of a function that does nothing.

ghost use Rattle.ecd_acts_example.specs.Comparison.{ComparisonCompares, CopierCopies};
ghost use Rattle.ecd_acts_example.specs.Literal.{LiteralsCompare};

/// The emitted comparison of bytes answers the order of two windows, in at most seven steps for each byte of the shorter one and seven more, behind any items.
pub fn comparison()
    ensures { ComparisonCompares }
{}

/// The function that is generated for a literal answers whether it stands at a place, in at most a step for each byte and two more, behind any items.
pub fn literals()
    ensures { LiteralsCompare }
{}

/// The emitted copy of bytes writes the bytes of a window to another block and nothing else, in at most two steps for each byte and two more, behind any items.
pub fn copy()
    ensures { CopierCopies }
{}
