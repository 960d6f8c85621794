//! Laws of the grammar of docs/C-SUBSET.md, about the definitions alone.

ghost use Rattle.ecd_cgrammar.specs.Laws.{ProgramsAreLexemes, OneLaying, OneProgram, OneFault, NoFault};

/// The lexemes of a program that has a spelling are lexemes.
pub fn programs_are_lexemes()
    ensures { ProgramsAreLexemes }
{}

/// A text is laid out of one list of lexemes.
#[tactic(auto, using(crate::proofs::Lexing::one_laying))]
pub fn one_laying()
    ensures { OneLaying }
{}

/// A text spells one program at most.
pub fn one_program()
    ensures { OneProgram }
{}

/// A text has one first place of fault at most.
pub fn one_fault()
    ensures { OneFault }
{}

/// A text that spells a program has no fault.
pub fn a_spelling_has_no_fault()
    ensures { NoFault }
{}
