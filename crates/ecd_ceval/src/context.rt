//! What a piece of a function is run with.

ghost use Rattle.std.specs.Prelude.{◌≡◌, ◌+◌, ◌-◌, ◌<◌, IfOk};
ghost use Rattle.ecd_cast.specs.Meaning.{count_of as statements_of};

use crate::count::count_of;
use ecd_cast::tree::{CItem, Stmt};
use ecd_list::OutOfMemory;
use std::alloc::Global;

/// The items of the program, the item that runs, and how many levels of calls and blocks may still be entered.
#[derive(Clone, Copy)]
pub struct Context<'a> {
    pub alloc: Global,
    pub items: &'a [CItem],
    pub item: u32,
    pub levels: u32,
}

impl<'a> Context<'a> {
    /// One level further inside.
    pub fn inner(self) -> Result<Context<'a>, OutOfMemory>
        ensures same { IfOk result (λ inner. inner ≡ record self.entry { levels = self.entry.levels - 1 }) }
        ensures fewer { IfOk result (λ inner. inner.levels < self.entry.levels) }
    {
        match self.levels.checked_sub(1) {
            Some(levels) => Ok(Context {
                alloc: self.alloc,
                items: self.items,
                item: self.item,
                levels,
            }),
            None => Err(OutOfMemory),
        }
    }
}

/// The number so many statements behind.
pub fn after(number: u32, statements: u32) -> Result<u32, OutOfMemory>
    ensures { IfOk result (λ n. n ≡ number + statements) }
{
    number.checked_add(statements).ok_or(OutOfMemory)
}

/// The number behind a statement.
pub fn behind(number: u32, statement: &Stmt) -> Result<u32, OutOfMemory>
    ensures { IfOk result (λ n. n ≡ number + statements_of statement.now) }
{
    match count_of(statement) {
        Some(statements) => after(number, statements),
        None => Err(OutOfMemory),
    }
}
