//! What stands at the front of the parts of an array, and what may follow them.
#![tactic(auto)]

mod emptiable;
mod starts;

pub use ecd_core::{Part, Shape, Way};
pub use ecd_list::OutOfMemory;
pub use emptiable::are_emptiable;
pub use starts::{follow, follow_body, starts_of};
