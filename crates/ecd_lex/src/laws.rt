//! Facts of the definitions alone.

ghost use Rattle.std.specs.Prelude.{ℕ, List};
ghost use Rattle.ecd_lex.specs.Lexemes.{HasOneTokenList, HasOneFirstFault, HasTokensOrFault};

/// A text is read as at most one list of tokens.
pub fn one_token_list()
    ensures { (text : List ℕ) → HasOneTokenList text }
{}

/// At most one rule is the first that a text breaks, at one place.
pub fn one_first_fault()
    ensures { (text : List ℕ) → HasOneFirstFault text }
{}

/// A text that is read as tokens breaks no rule.
pub fn tokens_or_fault()
    ensures { (text : List ℕ) → HasTokensOrFault text }
{}
