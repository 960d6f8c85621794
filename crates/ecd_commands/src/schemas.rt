//! Schemas that are compiled, and the answers to those that are refused.

ghost use Rattle.std.specs.Prelude.{◌≡◌, ◌≤◌, IfOk, IfErr, length};
ghost use Rattle.ecd_judge.specs.Request.{request};
ghost use Rattle.ecd_judge.specs.Schema.{StandsWithin};
ghost use Rattle.ecd_compile.specs.Reads.{IsCompiled};
ghost use Rattle.ecd_commands.specs.Causes.{broken as broken_at, outcome_of_refusal, IsRefusedOrWants};
ghost use Rattle.ecd_commands.specs.Answers.{outcome_of};

use crate::answer::Answer;
use crate::words::SchemaWords;
use ecd_compile::{Compiled, Refusal, compile};
use ecd_lex::{MOST_BYTES, line_column};
use std::alloc::Global;

/// The answer to a schema that breaks a rule.
fn broken(schema: &[u8], place: u32, letter: &'static str, rule: u8) -> Answer<'static>
    requires short { length schema.now ≤ MOST_BYTES }
    requires within { place ≤ length schema.now }
    ensures { outcome_of result ≡ broken_at schema.now place letter.now rule }
{
    let (line, column) = line_column(schema, place);
    Answer::Broken {
        line,
        column,
        place,
        letter,
        rule,
    }
}

/// The answer to a schema that is refused.
fn refused(schema: &[u8], refusal: Refusal) -> Answer<'static>
    requires short { length schema.now ≤ MOST_BYTES }
    requires within { StandsWithin (length schema.now) refusal }
    ensures { outcome_of result ≡ outcome_of_refusal schema.now refusal }
{
    match refusal {
        Refusal::NotUtf8 { place } => broken(schema, place, "T", 0),
        Refusal::Lex { place, rule } => broken(schema, place, "X", rule),
        Refusal::Parse { place, rule } => broken(schema, place, "P", rule),
        Refusal::Name { place, rule } => broken(schema, place, "N", rule),
        Refusal::NotBuilt => Answer::NotBuilt,
        Refusal::OutOfMemory => Answer::OutOfMemory,
    }
}

/// The compiled schema, or the answer to it.
pub fn compile_schema(
    alloc: Global,
    schema: &[u8],
    words: &SchemaWords<'_>,
) -> Result<Compiled, Answer<'static>>
    requires short { length schema.now ≤ MOST_BYTES }
    requires shallow { words.now.depth ≤ 32 }
    ensures compiled { IfOk result (λ c. IsCompiled (request schema.now words.now.root.now words.now.depth words.now.order) c.text c.program) }
    ensures refused { IfErr result (λ answer. IsRefusedOrWants (request schema.now words.now.root.now words.now.depth words.now.order) (outcome_of answer)) }
{
    match compile(alloc, schema, words.root, words.depth, words.order) {
        Ok(compiled) => Ok(compiled),
        Err(refusal) => Err(refused(schema, refusal)),
    }
}
