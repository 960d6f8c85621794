//! The emitted reader, called on data.
#![tactic(auto)]

ghost use Rattle.std.specs.Prelude.{◌<◌, ◌^◌, ℕ, IfOk, length};
ghost use Rattle.ecd_cast.specs.Validity.{IsValid};
ghost use Rattle.ecd_compile.specs.Reads.{HasInterface, ReadsByte};
ghost use Rattle.ecd_reader.specs.Takes.{Takes};

use ecd_cbuild::builder::Valid;
use ecd_ceval::{Arg, Block, BlockList, Machine};
pub use ecd_list::OutOfMemory;
use std::alloc::Global;

/// What `read_0` answers on the data: how many bytes it takes.
///
/// The data are shorter than 2^62 bytes. The answer is told of a program that reads one small number.
///
/// # Errors
///
/// `OutOfMemory` where a growth was refused, or where the run is stuck, as that of a compiled program never is.
pub fn consumed(alloc: Global, program: &Valid, input: &[u8]) -> Result<u64, OutOfMemory>
    requires valid { IsValid program.now }
    requires interface { HasInterface program.now.items }
    requires short { length input.now < 2 ^ 62 }
    ensures { IfOk result (λ n. (number : ℕ) → ReadsByte number program.now → Takes number input.now n) }
{
    let mut blocks = BlockList::new(alloc);
    blocks.push(Block::Fixed(input))?;
    blocks.push(Block::Cells(0))?;
    let mut machine = Machine::prepare(alloc, program, blocks)?;
    let Some(reader) = program.function("read_0") else {
        unreachable!();
    };
    let args = [
        Arg::Bytes {
            block: 0,
            offset: 0,
        },
        Arg::Number(input.len() as u64),
        Arg::Struct { block: 1 },
    ];
    match machine.call(reader, &args, None) {
        Ok(taken) => Ok(taken),
        Err(_) => Err(OutOfMemory),
    }
}
