//! Sums up to a limit.

ghost use Rattle.std.specs.Prelude.{◌≡◌, ℕ, ◌^◌, min};
ghost use Rattle.ecd_tally.specs.Sums.{IsCapped};

use crate::Tally;

/// The greatest sum that a `Capped` tells: 2^63.
pub const LIMIT: u64 = 0x8000_0000_0000_0000;

/// A sum, or 2^63 where it is greater.
#[derive(Clone, Copy, Debug, PartialEq, Eq)]
pub struct Capped {
    total: u64,
}

impl Capped {
    /// The sum of no numbers.
    pub fn new() -> Capped
        ensures { IsCapped result 0 }
    {
        Capped { total: 0 }
    }

    /// The sum, or 2^63 where it is greater.
    pub fn total(&self) -> u64
        ensures { (sum : ℕ) → IsCapped self.now sum → result ≡ min sum (2 ^ 63) }
    {
        self.total
    }
}

impl Tally for Capped {
    ghost counts = { IsCapped };

    fn add(&mut self, number: u64) {
        self.total = self.total.saturating_add(number).min(LIMIT);
    }
}
