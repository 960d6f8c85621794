//! Programs of the C subset as text.
#![tactic(auto)]

ghost use Rattle.std.specs.Prelude.{IfOk};
ghost use Rattle.ecd_cast.specs.Spelling.{IsSpelling};

mod expressions;
mod items;
mod layout;
mod statements;

use crate::items::print_program;
use crate::layout::Layout;
use ecd_cbuild::builder::Valid;
use ecd_list::{ByteList, OutOfMemory};
use std::alloc::Global;

const FIRST_LINE: &[u8] = b"#include <stdint.h>\n";

/// A text that spells the program.
pub fn print(alloc: Global, program: &Valid) -> Result<ByteList, OutOfMemory>
    ensures { IfOk result (λ text. IsSpelling program.now text) }
{
    let mut out = Layout::new(Vec::from_slice(alloc, FIRST_LINE)?);
    print_program(alloc, &mut out, program.program())?;
    let mut text = out.into_text();
    text.push(b'\n')?;
    Ok(ByteList::from_vec(text))
}
