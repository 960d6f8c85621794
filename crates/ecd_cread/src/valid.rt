//! From a text to the valid program that it spells.

ghost use Rattle.std.specs.Prelude.{◌≡◌, ◌≤◌, ℕ, Ok, Err, IfOk, length};
ghost use Rattle.ecd_cast.specs.declared.tree.Program.{Program};
ghost use Rattle.ecd_cast.specs.Validity.{Fault, IsValid, IsFirstFault};
ghost use Rattle.ecd_cast.specs.Spelling.{IsSpelling};
ghost use Rattle.ecd_cgrammar.specs.Faults.{FaultAt};
ghost use Rattle.ecd_cread.specs.Answers.{AnswersWith, IsAnswer, Breaks};

use crate::fault::TextFault;
use crate::program::read_program;
use ecd_cast::fault::CFault;
use ecd_cbuild::builder::Valid;
use ecd_cjudge::validate::validate;
use ecd_clex::MOST_BYTES;
use std::alloc::Global;

fn answer(alloc: Global, text: &[u8]) -> Result<Valid, CFault>
    requires { length text.now ≤ MOST_BYTES }
    ensures { AnswersWith text.now result }
{
    match read_program(alloc, text) {
        Ok(program) => validate(alloc, program),
        Err(TextFault::At { place }) => Err(CFault::Text { place }),
        Err(TextFault::OutOfMemory) => Err(CFault::OutOfMemory),
    }
}

/// The valid program that a text spells (the grammar and the rules of docs/C-SUBSET.md).
///
/// # Errors
///
/// `Text` exactly where the text is no spelling: at the first lexeme, or byte that begins no lexeme, that no spelling has
/// behind those before it, or at the text's length where the text ends too early. `Rule` with the first of the rules C1
/// to C7 that the program breaks. `OutOfMemory` also where statements and expressions stand more than `MOST_LEVELS` deep inside
/// each other.
pub fn read_c(alloc: Global, text: &[u8]) -> Result<Valid, CFault>
    requires { length text.now ≤ MOST_BYTES }
    // The text spells the valid program that is answered, and a valid program that it spells is answered.
    ensures found { IfOk result (λ v. IsSpelling v text.now × IsValid v) }
    ensures only { (p : Program) → IsSpelling p text.now → IsValid p → IsAnswer result (Ok p) }

    // The text is at fault there first, and its first place of fault is answered.
    ensures text { (place : ℕ) → result ≡ Err (CFault.Text place) → FaultAt text.now place }
    ensures only_text { (place : ℕ) → FaultAt text.now place → IsAnswer result (Err (CFault.Text place)) }

    // The text spells a program with that first broken rule, and the first broken rule of such a program is answered.
    ensures rule { (rule item statement : ℕ) → result ≡ Err (CFault.Rule rule item statement) → Breaks text.now (record { rule = rule; item = item; statement = statement }) }
    ensures only_rule { (f : Fault) → Breaks text.now f → IsAnswer result (Err (CFault.Rule f.rule f.item f.statement)) }
{
    answer(alloc, text)
}
