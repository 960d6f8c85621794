//! Facts about bodies, each the contract of a function that does nothing.

ghost use Rattle.ecd_acts.specs.Cells.{CellsBehind, Sparing};
ghost use Rattle.ecd_acts.specs.Ends.{EndsPutTogether, OlderAnswers, AsDoes, WindowParts};
ghost use Rattle.ecd_acts.specs.Functions.{SoundByParts, DeclaredByParts, ValidByFunctions};
ghost use Rattle.ecd_acts.specs.Literals.{LiteralsByParts, ComparingWideHolds};
ghost use Rattle.ecd_acts.specs.Names.{NumberedNames, VariablesFound, FunctionsFound};
ghost use Rattle.ecd_acts.specs.Parts.{ValidByParts};
ghost use Rattle.ecd_acts.specs.Rules.{WeakeningHolds, SequencesHold, VariablesHold, CallingHolds, AskingHolds, WritingHolds, ChoosingHolds, DecidingHolds, RepeatingHolds, StillHolds, MovingHolds};
ghost use Rattle.ecd_acts.specs.Standing.{StandingParts, FramedPlacesEnd};

/// What is known of a body or of a run may be said more weakly.
pub fn weakening()
    ensures { WeakeningHolds }
{}

/// The ends of bodies, and one body behind another.
pub fn sequences()
    ensures { SequencesHold }
{}

/// Declarations and assignments of values.
pub fn variables()
    ensures { VariablesHold }
{}

/// Calls of functions, which may write, or write nothing; and functions by their bodies.
pub fn calling()
    ensures calls { CallingHolds }
    ensures asks { AskingHolds }
{}

/// Writes of bytes and cells.
pub fn writing()
    ensures { WritingHolds }
{}

/// Choices whose blocks return or fall through, and chains of guards, which the first test that holds decides.
pub fn choosing()
    ensures blocks { ChoosingHolds }
    ensures chains { DecidingHolds }
{}

/// A loop, by what is known before each of its turns; and the same where it writes nothing, and moves the variables round
/// it or leaves them.
pub fn repeating()
    ensures turns { RepeatingHolds }
    ensures moving { MovingHolds }
    ensures still { StillHolds }
{}

/// The cells of a block behind writes.
pub fn cells()
    ensures { CellsBehind }
{}

/// Writes that spare a block, by their parts.
pub fn sparing()
    ensures { Sparing }
{}

/// Ends of places: one behind another, the first of two, and none.
pub fn ends()
    ensures { EndsPutTogether }
{}

/// What is said of a run in other words: an answer within a number of steps, or one answer with its writes.
pub fn other_words()
    ensures answers { OlderAnswers }
    ensures does { AsDoes }
{}

/// Parts of windows, and windows behind writes to other blocks.
pub fn windows()
    ensures { WindowParts }
{}

/// Numbered names, what variables hold behind declarations and assignments, and functions that are named by their item numbers.
pub fn names()
    ensures numbers { NumberedNames }
    ensures variables { VariablesFound }
    ensures functions { FunctionsFound }
{}

/// The rules of validity at a body that is put together, by its parts.
pub fn parts()
    ensures { ValidByParts }
{}

/// A whole function by its parts: its statements are sound, its names differ, so it is valid behind the items; and a
/// valid program with it behind its items is valid.
pub fn functions()
    ensures sound { SoundByParts }
    ensures declared { DeclaredByParts }
    ensures valid { ValidByFunctions }
{}

/// Bytes that stand at places of a window, and framed places: the end of a framed place, and what finds it.
pub fn standing()
    ensures parts { StandingParts }
    ensures framed { FramedPlacesEnd }
{}

/// Comparisons with literals, by parts of them and by numbers of two, four and eight bytes.
pub fn literals()
    ensures parts { LiteralsByParts }
    ensures wide { ComparingWideHolds }
{}
