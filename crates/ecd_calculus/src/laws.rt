//! Facts about runs, each the contract of a function that does nothing.

ghost use Rattle.ecd_calculus.specs.Laws.{MeaningIsKept, Sequence, SequenceReturns, LoopFalls, LoopReturns, Choice, Call, CallDeclares, Repetition, OtherBlocks, WritesMakeMemory, Steps};

/// Items of other names behind a function change nothing of what it does.
pub fn items_behind()
    ensures meaning { MeaningIsKept }
{}

/// Ends, writes and steps of a sequence whose first statement falls through, or returns, from those of its parts.
pub fn sequence()
    ensures falls { Sequence }
    ensures returns { SequenceReturns }
{}

/// A choice ends, writes and steps as the block that it takes.
pub fn choice()
    ensures { Choice }
{}

/// Ends, writes and steps of a call whose body returns, from those of its body.
pub fn call()
    ensures body { Call }
    ensures declares { CallDeclares }
{}

/// A loop whose turns fall through and write nothing falls through, in at most the steps of its turns.
pub fn repetition()
    ensures { Repetition }
{}

/// Ends, writes and steps of a loop, from those of its turns: it falls through behind the last one, or returns in one of them.
pub fn loops()
    ensures falls { LoopFalls }
    ensures returns { LoopReturns }
{}

/// The memory behind a run is what its writes make of it, and blocks that it does not write to stay.
pub fn memory()
    ensures writes { WritesMakeMemory }
    ensures others { OtherBlocks }
{}

/// The first steps of a run.
pub fn steps()
    ensures { Steps }
{}
