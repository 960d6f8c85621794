//! The fixed functions of emitted files, as text.

use anyhow::Result;
use ecd_cbuild::builder::Builder;
use ecd_cprint::print;
use ecd_keyorder::Order;
use ecd_rt::runtime;
use std::alloc::Global;

/// The depth of the items that `any` holds in the file that is printed.
const DEPTH: u8 = 32;

/// Prints a file of the fixed functions for an order of keys.
///
/// # Errors
///
/// Where memory runs out or the output fails.
pub fn print_runtime(alloc: Global, order: Order, rt: &impl Print) -> Result<()> {
    let mut builder = Builder::new(alloc);
    runtime(alloc, DEPTH, order, &mut builder)?;
    let text = print(alloc, &builder.finish())?;
    let shown = std::str::from_utf8(text.as_slice())?;
    print!(rt; "{shown}")?;
    Ok(())
}
