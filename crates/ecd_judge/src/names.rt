//! From a schema's bytes to its names.

ghost use Rattle.std.specs.Prelude.{ℕ, ◌≡◌, ◌≤◌, ◌⊎◌, List as ListOf, IfOk, IfErr, MatchResult, length};
ghost use Rattle.ecd_syntax.specs.declared.tree.Rule.{Rule as ARule};
ghost use Rattle.ecd_judge.specs.declared.refusal.Refusal.{Refusal as ARefusal};
ghost use Rattle.ecd_keyorder.specs.declared.Order.{Order as AnOrder};
ghost use Rattle.ecd_judge.specs.Request.{request};
ghost use Rattle.ecd_judge.specs.Schema.{IsSound, HasCause, IsTold, StandsWithin};

use crate::refusal::{Refusal, of_names};
use crate::schema::schema_tree;
use ecd_keyorder::Order;
use ecd_lex::MOST_BYTES;
use ecd_names::{Names, resolve};
use std::alloc::Global;

/// Judges a schema by the rules T0, X1 to X6, P1, P2 and N1 to N5: the names of one that breaks none.
///
/// The root, the depth and the order of keys belong to what is asked; none of these rules speaks of them.
///
/// # Errors
///
/// The first broken rule with its place, and never `NotBuilt`.
pub fn judge(
    alloc: Global,
    schema: &[u8],
    root: &str,
    depth: u8,
    order: Order,
) -> Result<Names, Refusal>
    requires { length schema.now ≤ MOST_BYTES }

    // The names of a schema that breaks no rule, and each such schema has them.
    ensures sound { IfOk result (λ names. IsSound (request schema.now root.now depth order) names) }
    ensures only_sound { (rules : ListOf ARule) → IsSound (request schema.now root.now depth order) rules → IfErr result (λ refusal. refusal ≡ Refusal.OutOfMemory) }

    // A refusal has its cause, and each cause is answered.
    ensures refused { IfErr result (λ refusal. HasCause (request schema.now root.now depth order) refusal) }
    ensures only_refused { (cause : ARefusal) → IsTold cause → HasCause (request schema.now root.now depth order) cause
        → MatchResult result (λ _. ⊥) (λ refusal. (refusal ≡ cause) ⊎ (refusal ≡ Refusal.OutOfMemory)) }
    ensures within { IfErr result (λ refusal. StandsWithin (length schema.now) refusal) }
{
    let _ = root;
    let _ = depth;
    let _ = order;
    names_of(alloc, schema)
}

/// The names of a schema.
fn names_of(alloc: Global, schema: &[u8]) -> Result<Names, Refusal>
    requires { length schema.now ≤ MOST_BYTES }
    ensures sound { IfOk result (λ names. (root : ListOf ℕ) (depth : ℕ) (order : AnOrder) → IsSound (request schema.now root depth order) names) }
    ensures refused { IfErr result (λ refusal. (root : ListOf ℕ) (depth : ℕ) (order : AnOrder) → HasCause (request schema.now root depth order) refusal) }
    ensures within { IfErr result (λ refusal. StandsWithin (length schema.now) refusal) }
{
    let tree = match schema_tree(alloc, schema) {
        Ok(tree) => tree,
        Err(refusal) => return Err(refusal),
    };
    match resolve(alloc, tree) {
        Ok(names) => Ok(names),
        Err(fault) => Err(of_names(fault)),
    }
}
