//! Sums that take no memory: up to a limit, and exact ones.
#![tactic(auto)]

ghost use Rattle.std.specs.Prelude.{ℕ, ◌+◌};

mod capped;
mod wide;

pub use capped::{Capped, LIMIT};
pub use wide::Wide;

/// A sum that grows.
pub trait Tally {
    /// It is the sum of this number, as far as the kind of sum tells it.
    ghost counts: { Self → ℕ → Type 0 };

    /// Adds a number.
    fn add(&mut self, number: u64)
        ensures { (sum : ℕ) → counts self.old sum → counts self.new (sum + number) };
}
