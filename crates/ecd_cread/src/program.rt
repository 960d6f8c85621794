//! From a text to the program that it spells.

ghost use Rattle.std.specs.Prelude.{◌≡◌, ◌≤◌, ◌++◌, ℕ, Ok, Err, IfOk, bytes_eq, length, take, drop};
ghost use Rattle.ecd_cast.specs.declared.tree.Program.{Program};
ghost use Rattle.ecd_cast.specs.Spelling.{first_line, IsSpelling};
ghost use Rattle.ecd_cgrammar.specs.Faults.{FaultAt};
ghost use Rattle.ecd_cread.specs.Answers.{Answers, Is, place_or as place_meant};

use crate::cursor::Halt;
use crate::fault::TextFault;
use crate::items::read_tokens;
use ecd_cast::tree::Program;
use ecd_clex::{MOST_BYTES, Token, is_same, lex};
use ecd_list::MOST_LEVELS;
use ecd_text::front;
use std::alloc::Global;

/// The first line of a text, with its line feed.
const FIRST_LINE: &[u8] = b"#include <stdint.h>\n";

/// Whether a text begins with the first line.
fn begins_well(text: &[u8]) -> bool
    ensures { result ≡ bytes_eq (take 20 text.now) first_line }
{
    is_same(front(text, FIRST_LINE.len()), FIRST_LINE)
}

/// The place of the token of that number, or the place behind all.
fn place_or(tokens: &[Token], at: usize, end: u32) -> u32
    ensures { result ≡ place_meant end (drop at tokens.now) }
{
    match tokens.get(at) {
        Some(token) => token.at,
        None => end,
    }
}

fn answer(alloc: Global, text: &[u8]) -> Result<Program, TextFault>
    requires { length text.now ≤ MOST_BYTES }
    ensures { Answers text.now result }
{
    if !begins_well(text) {
        return Err(TextFault::At { place: 0 });
    }
    let (tokens, end) = lex(alloc, text, FIRST_LINE.len())?;
    match read_tokens(alloc, text, tokens.as_slice(), MOST_LEVELS) {
        Ok(program) if end == text.len() => Ok(program),
        Ok(_) => Err(TextFault::At { place: end as u32 }),
        Err(Halt::Unexpected(at)) => Err(TextFault::At {
            place: place_or(tokens.as_slice(), at, end as u32),
        }),
        Err(Halt::OutOfMemory) => Err(TextFault::OutOfMemory),
    }
}

/// The program that a text spells (the grammar of docs/C-SUBSET.md).
///
/// # Errors
///
/// `At` exactly where the text is no spelling: at the first lexeme, or byte that begins no lexeme, that no spelling has
/// behind those before it, or at the text's length where the text ends too early. `OutOfMemory` also where statements
/// and expressions stand more than `MOST_LEVELS` deep inside each other.
pub fn read_program(alloc: Global, text: &[u8]) -> Result<Program, TextFault>
    requires { length text.now ≤ MOST_BYTES }
    // The text spells the program that is answered, and a program that it spells is answered.
    ensures found { IfOk result (λ program. IsSpelling program text.now) }
    ensures only { (program : Program) → IsSpelling program text.now → Is result (Ok program) }

    // The text is at fault there first, and its first place of fault is answered.
    ensures fault { (place : ℕ) → result ≡ Err (TextFault.At place) → FaultAt text.now place }
    ensures only_fault { (place : ℕ) → FaultAt text.now place → Is result (Err (TextFault.At place)) }
{
    answer(alloc, text)
}
