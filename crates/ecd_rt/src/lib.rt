//! The fixed functions of every emitted file, those with a depth among them.
#![tactic(auto)]

ghost use Rattle.std.specs.Prelude.{◌≡◌, ◌≤◌, ◌++◌, OnOk};
ghost use Rattle.ecd_emit.specs.Among.{AreNew};
ghost use Rattle.ecd_rt.specs.Runtime.{runtime_functions, runtime_names, RuntimeIsThere, RuntimeMeans};

mod any;
mod base;
pub mod laws;
mod names;
mod runs;

use crate::any::any_chain;
use crate::base::{put_front, put_writing};
use ecd_cbuild::builder::Builder;
use ecd_keyorder::Order;
use ecd_list::OutOfMemory;
use std::alloc::Global;

/// Puts all fixed functions behind the builder's items: those over heads, extents, the check of UTF-8 and the
/// comparison of bytes; those with a depth, `any_0` to `any_` of `depth` and what they call; the writer of heads and
/// the copier. The order is that of a map's keys; the names are the same for both. None of them is taken before.
///
/// # Errors
///
/// `OutOfMemory` where memory is wanting. The builder may only be dropped then.
pub fn runtime(
    alloc: Global,
    depth: u8,
    order: Order,
    builder: &mut Builder,
) -> Result<(), OutOfMemory>
    requires deep { depth ≤ 32 }
    requires new { AreNew (runtime_names depth) builder.old }
    ensures items { OnOk result (builder.new ≡ builder.old ++ runtime_functions order depth) }
    ensures there { OnOk result (RuntimeIsThere depth builder.new) }
    ensures mean { OnOk result (RuntimeMeans order depth builder.new) }
{
    put_front(alloc, order, builder)?;
    any_chain(alloc, depth, builder)?;
    put_writing(alloc, builder)?;
    Ok(())
}
