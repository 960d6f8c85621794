//! Facts about runs of programs, each the contract of a function that does nothing.

ghost use Rattle.ecd_csafe.specs.Safety.{ValidCalls, ActiveCalls};
ghost use Rattle.ecd_csafe.specs.Deepest.{HasDeepestChain, HasNoLongerChain, HasHeaviestChain, HasNoHeavierChain};
ghost use Rattle.ecd_csafe.specs.Stuck.{StuckPlaces};
ghost use Rattle.ecd_csafe.specs.Ranges.{CallsInRange};

/// Never more calls are active in a call than the longest chain of calls has.
pub fn active_calls()
    ensures { ActiveCalls }
{}

/// Some chain of calls is as long as the call depth, and in a valid program none is longer: each function of a chain calls the next by its name, which stands before it.
pub fn deepest_chain()
    ensures some { HasDeepestChain }
    ensures longest { HasNoLongerChain }
{}

/// Where each function has a weight, some chain of calls is as heavy as the heaviest of the definitions, and in a valid program none is heavier. The weight 1 gives the call depth, and the number of variables and parameters the spaces.
pub fn heaviest_chain()
    ensures some { HasHeaviestChain }
    ensures heaviest { HasNoHeavierChain }
{}

/// A call of a valid program, with arguments that fit in a memory whose cells have the kinds of their structs, returns or is stuck for one of the reasons 1 to 5, and the memory keeps the kinds.
pub fn valid_calls()
    ensures { ValidCalls }
{}

/// A call that is stuck for one of the reasons 1 to 5 is stuck at a statement of a function of the program.
pub fn stuck_places()
    ensures { StuckPlaces }
{}

/// A call in a program that has a spelling, whose arguments and memory are in range, returns a number below 2^64 or is stuck, writes only bytes below 256 and cells whose numbers are below 2^64, and leaves such a memory, after each first part of what it does too.
pub fn calls_in_range()
    ensures { CallsInRange }
{}
