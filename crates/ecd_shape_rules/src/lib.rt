//! The rules under which a shape gives each item at most one value: A1 to A4 of choices and arrays, M1 to M5 of maps, each with the place at which it is broken.
//! RFC 8610 leaves the choice between readings of an item to the order of the text (appendix A); these rules are this project's own.
#![tactic(auto)]

pub mod laws;
mod rule;

pub use rule::Rule;
