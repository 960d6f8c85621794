//! Lists and boxes that contracts see as what they hold, and the one answer for want of memory.
//!
//! A tree of `List` and `Boxed` is plain data in a contract: no pointer and no capacity is part of its value.
#![tactic(auto)]

mod boxed;
mod list;
mod memory;

pub use boxed::Boxed;
pub use list::{ByteList, List};
pub use memory::{MOST_LEVELS, OutOfMemory};
