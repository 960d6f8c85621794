//! The prelude of CDDL (RFC 8610, Appendix D): its rules, and its names of floats, which have none; and names that are sockets.
#![tactic(auto)]

mod floats;
pub mod laws;
mod row;
mod rule;
pub mod socket;
mod table;

pub use ecd_list::OutOfMemory;
pub use ecd_syntax::RuleList;
pub use floats::is_float_name;
pub use table::prelude;
