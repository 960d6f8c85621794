//! From tokens to a tree.

ghost use Rattle.std.specs.Prelude.{◌≡◌, ◌+◌, ◌<◌, ℕ, Ok, Err, IfOk, length, take, drop};
ghost use Rattle.ecd_syntax.specs.Grammar.{Spells};
ghost use Rattle.ecd_syntax.specs.Faults.{IsWithin, StaysWithin, open_after, UnexpectedAt, TooNestedAt, place_or as place_meant};
ghost use Rattle.ecd_syntax.specs.declared.tree.Tree.{Tree};
ghost use Rattle.ecd_parse.specs.Answers.{Answers, Is};

use crate::brackets::one_too_many;
use crate::cursor::Halt;
use crate::fault::ParseFault;
use crate::rules::read_rules;
use ecd_lex::{Token, TokenList};
use ecd_list::MOST_LEVELS;
use ecd_syntax::Tree;
use std::alloc::Global;

/// The place of the token of that number, or the end of the text.
fn place_or(tokens: &[Token], at: usize, end: u32) -> u32
    ensures { result ≡ place_meant end (drop at tokens.now) }
{
    match tokens.get(at) {
        Some(token) => token.at,
        None => end,
    }
}

/// What stands at or before a bracket that is one too many: an unexpected token, or that bracket.
fn fault_by(alloc: Global, tokens: &[Token], bracket: usize, end: u32) -> ParseFault
    requires within { bracket < length tokens.now }
    requires before { StaysWithin (take bracket tokens.now) 0 }
    requires opens { open_after (take (bracket + 1) tokens.now) 0 ≡ 49 }
    ensures { Answers tokens.now end (Err result) }
{
    match read_rules(alloc, &tokens[..bracket + 1], MOST_LEVELS) {
        Ok(_) => too_nested(tokens, bracket),
        Err(Halt::Unexpected(at)) => {
            if at <= bracket {
                ParseFault::Unexpected {
                    place: place_or(tokens, at, end),
                }
            } else {
                too_nested(tokens, bracket)
            }
        }
        Err(Halt::OutOfMemory) => ParseFault::OutOfMemory,
    }
}

fn too_nested(tokens: &[Token], bracket: usize) -> ParseFault
    requires { bracket < length tokens.now }
    ensures { result ≡ ParseFault.TooNested (place_meant 0 (drop bracket tokens.now)) }
{
    ParseFault::TooNested {
        place: tokens[bracket].at,
    }
}

fn answer(alloc: Global, tokens: &[Token], end: u32) -> Result<Tree, ParseFault>
    ensures { Answers tokens.now end result }
{
    if let Some(bracket) = one_too_many(tokens) {
        return Err(fault_by(alloc, tokens, bracket, end));
    }
    match read_rules(alloc, tokens, MOST_LEVELS) {
        Ok(rules) => Ok(Tree { rules }),
        Err(Halt::Unexpected(at)) => Err(ParseFault::Unexpected {
            place: place_or(tokens, at, end),
        }),
        Err(Halt::OutOfMemory) => Err(ParseFault::OutOfMemory),
    }
}

/// The tree that the tokens spell (RFC 8610, Appendix B, in the profile of docs/SCHEMA.md). `length` is the length of their text in bytes.
///
/// # Errors
///
/// `Unexpected` at the first token that no schema has behind those before it, or at `length` where the text ends too
/// early; `TooNested` at the bracket that opens the 49th open bracket, where there is no such token at or before it.
/// `OutOfMemory` also where choices of a type stand more than `MOST_LEVELS` deep inside each other.
pub fn parse(alloc: Global, tokens: &TokenList, length: u32) -> Result<Tree, ParseFault>
    // The tree spells the tokens, and that tree is answered.
    ensures found { IfOk result (λ tree. Spells tree tokens.now × IsWithin tokens.now) }
    ensures only { (tree : Tree) → Spells tree tokens.now → IsWithin tokens.now → Is result (Ok tree) }

    // The first unexpected token stands there, and is answered.
    ensures unexpected { (place : ℕ) → result ≡ Err (ParseFault.Unexpected place) → UnexpectedAt tokens.now length place }
    ensures only_unexpected { (place : ℕ) → UnexpectedAt tokens.now length place → Is result (Err (ParseFault.Unexpected place)) }

    // The first bracket that is one too many stands there, and is answered.
    ensures nested { (place : ℕ) → result ≡ Err (ParseFault.TooNested place) → TooNestedAt tokens.now place }
    ensures only_nested { (place : ℕ) → TooNestedAt tokens.now place → Is result (Err (ParseFault.TooNested place)) }
{
    answer(alloc, tokens.as_slice(), length)
}
