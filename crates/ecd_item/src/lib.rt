//! Data items read, judged, measured and written in their deterministic encoding: RFC 8949, sections 2, 3, 4.2.1 and 4.2.3.
#![tactic(auto)]

mod compare;
mod fault;
mod measure;
mod parts;
mod read;
mod valid;
mod write;

pub use ecd_head::NoRoom;
pub use ecd_item_laws::{Cause, Item, ItemList, Pair, PairList};
pub use ecd_list::{Boxed, ByteList, OutOfMemory};
pub use fault::ItemFault;
pub use measure::length_of;
pub use read::read_item;
pub use valid::is_valid;
pub use write::write_item;
