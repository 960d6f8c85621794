//! What every C text has. The laws of the crates below say that it has no more than one.

ghost use Rattle.ecd_c_laws.specs.Laws.{TextsAreRead, TextsAreJudged};

/// A text spells a program of the subset, or has a first place at which it is no spelling.
pub fn texts_are_read()
    ensures { TextsAreRead }
{}

/// A text spells a valid program, or has a first place of fault, or spells a program with a first broken rule of C1 to C7.
pub fn texts_are_judged()
    ensures { TextsAreJudged }
{}
