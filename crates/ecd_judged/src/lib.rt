//! Shapes that keep the rules A1 to A4 of choices and arrays and M1 to M5 of maps, and so give each item at most one value.
#![tactic(auto)]

mod judged;

pub use ecd_core::Shape;
pub use ecd_keyorder::Order;
pub use judged::Judged;
