//! Laws of the grammar of docs/SCHEMA.md (after RFC 8610, Appendix B), about the definitions alone.

ghost use Rattle.std.specs.Prelude.{List, ℕ, ◌≡◌};
ghost use Rattle.ecd_lex.specs.declared.token.Token.{Token};
ghost use Rattle.ecd_syntax.specs.declared.tree.Tree.{Tree};
ghost use Rattle.ecd_syntax.specs.Grammar.{Spells};
ghost use Rattle.ecd_syntax.specs.Faults.{IsUnexpected, IsWithin, UnexpectedAt, TooNestedAt};

/// A list of tokens spells at most one tree.
pub fn one_tree()
    ensures { (a b : Tree) (tokens : List Token) → Spells a tokens → Spells b tokens → a ≡ b }
{}

/// The tokens of a schema have no unexpected token.
pub fn a_schema_has_no_unexpected_token()
    ensures { (tree : Tree) (tokens before rest : List Token) → Spells tree tokens → IsUnexpected tokens before rest → ⊥ }
{}

/// The first unexpected token stands at one place.
pub fn one_unexpected_place()
    ensures { (tokens : List Token) (end p q : ℕ) → UnexpectedAt tokens end p → UnexpectedAt tokens end q → p ≡ q }
{}

/// The first bracket that is one too many stands at one place, and only where there is one too many.
pub fn one_nested_place()
    ensures one { (tokens : List Token) (p q : ℕ) → TooNestedAt tokens p → TooNestedAt tokens q → p ≡ q }
    ensures within { (tokens : List Token) (p : ℕ) → TooNestedAt tokens p → IsWithin tokens → ⊥ }
{}

/// Tokens have no more than one of the two: a first unexpected token, and a bracket that is one too many before it.
pub fn one_fault()
    ensures { (tokens : List Token) (end p q : ℕ) → TooNestedAt tokens p → UnexpectedAt tokens end q → ⊥ }
{}
