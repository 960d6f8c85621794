//! The compiler: from a schema's text to C text.
#![tactic(auto)]

ghost use Rattle.std.specs.Prelude.{ℕ, ◌≡◌, ◌≤◌, ◌⊎◌, IfOk, IfErr, MatchResult, length};
ghost use Rattle.ecd_compile.specs.Reads.{IsCompiled};
ghost use Rattle.ecd_compile.specs.Schema.{IsNumber, HasCause};
ghost use Rattle.ecd_judge.specs.declared.refusal.Refusal.{Refusal};
ghost use Rattle.ecd_judge.specs.Request.{request};
ghost use Rattle.ecd_judge.specs.Schema.{IsTold, StandsWithin};

pub mod laws;
mod reader;
mod thin;

use crate::reader::reader;
use crate::thin::thin_number;
use ecd_cbuild::builder::Valid;
use ecd_cprint::print;
pub use ecd_judge::Refusal;
use ecd_judge::judge;
use ecd_keyorder::Order;
use ecd_lex::MOST_BYTES;
use ecd_list::ByteList;
use std::alloc::Global;

/// A compiled schema.
#[derive(Debug, Drop)]
pub struct Compiled {
    /// The C text. It spells the program.
    pub text: ByteList,
    pub program: Valid,
}

/// The first broken rule, or the compiled schema.
fn compile_thin(
    alloc: Global,
    schema: &[u8],
    root: &str,
    depth: u8,
    order: Order,
) -> Result<Compiled, Refusal>
    requires { length schema.now ≤ MOST_BYTES }
    ensures compiled { IfOk result (λ c. IsCompiled (request schema.now root.now depth order) c.text c.program) }
    ensures refused { IfErr result (λ refusal. HasCause (request schema.now root.now depth order) refusal) }
    ensures within { IfErr result (λ refusal. StandsWithin (length schema.now) refusal) }
{
    let names = match judge(alloc, schema, root, depth, order) {
        Ok(names) => names,
        Err(refusal) => return Err(refusal),
    };
    let Some(number) = thin_number(names.rules(), root) else {
        return Err(Refusal::NotBuilt);
    };
    let program = reader(alloc, number)?;
    let text = print(alloc, &program)?;
    Ok(Compiled { text, program })
}

/// Compiles a schema, where `any` holds items of nesting at most `depth`, and the keys of maps ascend in the order.
///
/// # Errors
///
/// The first broken rule of T0, X1 to X6, P1, P2 and N1 to N5 with its place. `NotBuilt` exactly where none is broken and the
/// schema is not the one rule `root = number`, with a letter a to z and a number from 0 to 23.
pub fn compile(
    alloc: Global,
    schema: &[u8],
    root: &str,
    depth: u8,
    order: Order,
) -> Result<Compiled, Refusal>
    requires shallow { depth ≤ 32 }
    requires short { length schema.now ≤ MOST_BYTES }

    // A schema that is taken is compiled, and every schema that can be is.
    ensures compiled { IfOk result (λ c. IsCompiled (request schema.now root.now depth order) c.text c.program) }
    ensures only_compiled { (number : ℕ) → IsNumber (request schema.now root.now depth order) number → IfErr result (λ refusal. refusal ≡ Refusal.OutOfMemory) }

    // A refusal has its cause, and each cause is answered.
    ensures refused { IfErr result (λ refusal. HasCause (request schema.now root.now depth order) refusal) }
    ensures only_refused { (cause : Refusal) → IsTold cause → HasCause (request schema.now root.now depth order) cause
        → MatchResult result (λ _. ⊥) (λ refusal. (refusal ≡ cause) ⊎ (refusal ≡ Refusal.OutOfMemory)) }
    ensures within { IfErr result (λ refusal. StandsWithin (length schema.now) refusal) }
{
    compile_thin(alloc, schema, root, depth, order)
}
