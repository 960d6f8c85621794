//! The faults that the expansion of a schema meets, in any order: the first of them, by the place and at one place by the rule's rank.
#![tactic(auto)]

mod found;
pub mod laws;

pub use ecd_expansion::ElabRule;
pub use found::Found;
