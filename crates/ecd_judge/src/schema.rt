//! From a schema's bytes to its tree.

ghost use Rattle.std.specs.Prelude.{ℕ, List, ◌≡◌, ◌≤◌, IfOk, IfErr, length};
ghost use Rattle.std.specs.List.{AllByRecursion};
ghost use Rattle.ecd_uses.specs.Places.{IsRuleInside};
ghost use Rattle.ecd_keyorder.specs.declared.Order.{Order};
ghost use Rattle.ecd_judge.specs.Request.{request};
ghost use Rattle.ecd_judge.specs.Schema.{IsSchema, HasCause, StandsWithin};

use crate::refusal::{Refusal, of_grammar, of_lexemes};
use ecd_lex::{MOST_BYTES, lex};
use ecd_parse::{Tree, parse};
use std::alloc::Global;

/// The tree of a text.
fn tree_of(alloc: Global, text: &str) -> Result<Tree, Refusal>
    requires { length text.now ≤ MOST_BYTES }
    ensures tree { IfOk result (λ tree. IsSchema text.now tree) }
    ensures inside { IfOk result (λ tree. AllByRecursion (IsRuleInside (length text.now)) tree.rules) }
    ensures refused { IfErr result (λ refusal. (root : List ℕ) (depth : ℕ) (order : Order) → HasCause (request text.now root depth order) refusal) }
    ensures within { IfErr result (λ refusal. StandsWithin (length text.now) refusal) }
{
    let tokens = match lex(alloc, text) {
        Ok(tokens) => tokens,
        Err(fault) => return Err(of_lexemes(fault)),
    };
    let tree = match parse(alloc, &tokens, text.len() as u32) {
        Ok(tree) => tree,
        Err(fault) => return Err(of_grammar(fault)),
    };
    Ok(tree)
}

/// The tree of a schema's bytes.
pub(crate) fn schema_tree(alloc: Global, schema: &[u8]) -> Result<Tree, Refusal>
    requires { length schema.now ≤ MOST_BYTES }
    ensures tree { IfOk result (λ tree. IsSchema schema.now tree) }
    ensures inside { IfOk result (λ tree. AllByRecursion (IsRuleInside (length schema.now)) tree.rules) }
    ensures refused { IfErr result (λ refusal. (root : List ℕ) (depth : ℕ) (order : Order) → HasCause (request schema.now root depth order) refusal) }
    ensures within { IfErr result (λ refusal. StandsWithin (length schema.now) refusal) }
{
    match str::from_utf8(schema) {
        Ok(text) => tree_of(alloc, text),
        Err(error) => Err(Refusal::NotUtf8 {
            place: error.valid_up_to() as u32,
        }),
    }
}
