//! The fixed functions over heads, and those that find the end of an item.
#![tactic(auto)]

ghost use Rattle.std.specs.Prelude.{◌≡◌, ◌++◌, IfOk, OnOk};
ghost use Rattle.ecd_fixed_heads.specs.Heads.{head_functions, head_names};
ghost use Rattle.ecd_emit.specs.Among.{AreNew};
ghost use Rattle.ecd_fixed_heads.specs.Standing.{HeadsAreThere, HeadsMean};

mod extent;
mod firsts;
pub mod laws;
mod loads;
mod whole_heads;

use crate::firsts::{head_least, head_size};
use crate::loads::{load_be16, load_be32, load_be64};
use crate::whole_heads::{head_argument, head_end, head_within};
use ecd_cast::tree::{CItem, CItemList};
use ecd_cbuild::build::one;
use ecd_cbuild::builder::Builder;
use ecd_list::OutOfMemory;
pub use extent::extents;
use std::alloc::Global;

/// The functions over heads, in their order.
fn head_items(alloc: Global) -> Result<CItemList, OutOfMemory>
    ensures { IfOk result (λ items. items ≡ head_functions) }
{
    let mut items = one(alloc, CItem::Function(load_be16(alloc)?))?;
    items.push(CItem::Function(load_be32(alloc)?))?;
    items.push(CItem::Function(load_be64(alloc)?))?;
    items.push(CItem::Function(head_size(alloc)?))?;
    items.push(CItem::Function(head_least(alloc)?))?;
    items.push(CItem::Function(head_argument(alloc)?))?;
    items.push(CItem::Function(head_end(alloc)?))?;
    items.push(CItem::Function(head_within(alloc)?))?;
    Ok(items)
}

/// Puts the functions over heads behind the builder's items: `load_be16`, `load_be32`, `load_be64`, `head_size`,
/// `head_least`, `head_argument`, `head_end` and `head_within`. None of these names is taken before.
///
/// # Errors
///
/// `OutOfMemory` where memory is wanting. The builder may only be dropped then.
pub fn heads(alloc: Global, builder: &mut Builder) -> Result<(), OutOfMemory>
    requires { AreNew head_names builder.old }
    ensures items { OnOk result (builder.new ≡ builder.old ++ head_functions) }
    ensures there { OnOk result (HeadsAreThere builder.new) }
    ensures mean { OnOk result (HeadsMean builder.new) }
{
    builder.extend(head_items(alloc)?)?;
    Ok(())
}
