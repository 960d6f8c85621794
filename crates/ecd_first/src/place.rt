//! Places of faults.

ghost use Rattle.std.specs.Prelude.{◌≡◌};
ghost use Rattle.ecd_first.specs.Firsts.{Rank, is_less, offset};

/// A place that has a rank: the place of less rank comes first.
pub trait Place: Copy {
    /// Where it stands among all places: by a major number, then by a minor one.
    ghost rank: { Self → Rank };

    /// Whether it stands before the other.
    fn comes_before(self, other: Self) -> bool
        ensures { result ≡ is_less (rank self) (rank other) };
}

/// A byte's offset.
impl Place for u32 {
    ghost rank = { offset };

    fn comes_before(self, other: u32) -> bool {
        self < other
    }
}
