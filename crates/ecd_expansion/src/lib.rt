//! What a schema means as a shape (RFC 8610, sections 2 and 3): names, generics, sockets, groups and operators put in place, from a root on; the limits of this
//! expansion, and the faults that it may have.
#![tactic(auto)]

pub mod laws;
mod rule;

pub use rule::ElabRule;
