//! What every text, every list of tokens, every list of rules and every schema has: what it is taken as, or a first fault.
//! The laws of the crates below say that it has no more than one.

ghost use Rattle.ecd_schema_laws.specs.Laws.{TextsAreLexed, TokensAreParsed, NamesAreJudged, SchemasAreJudged, SchemasAreCompiled};

/// A text is read as tokens, or breaks a first rule of X1 to X6.
pub fn texts_are_lexed()
    ensures { TextsAreLexed }
{}

/// Tokens spell a tree with at most 48 brackets open at any time, or have a first unexpected token (P1), or a bracket too many (P2).
pub fn tokens_are_parsed()
    ensures { TokensAreParsed }
{}

/// The rules of a text break none of N1 to N5, or one of these first.
pub fn names_are_judged()
    ensures { NamesAreJudged }
{}

/// A schema breaks no rule of T0, X1 to X6, P1, P2 and N1 to N5, or has exactly one cause of refusal.
pub fn schemas_are_judged()
    ensures { SchemasAreJudged }
{}

/// A schema is one of those that are compiled so far, or has exactly one cause of refusal: a broken rule, or that it is not built.
pub fn schemas_are_compiled()
    ensures { SchemasAreCompiled }
{}
