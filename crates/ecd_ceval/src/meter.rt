//! The steps of a call, counted.

ghost use Rattle.std.specs.Prelude.{◌≡◌, MatchOption};
ghost use Rattle.ecd_ceval.specs.declared.meter.Meter.TheVariants.{Left as SomeLeft};
ghost use Rattle.ecd_ceval.specs.Steps.{Passes};

/// How many steps a call may still take, or has taken.
#[derive(Clone, Copy, Debug)]
pub enum Meter {
    /// With a limit: the steps that are left.
    Left(u64),
    /// Without a limit: the steps so far, 2^64 - 1 at most.
    Taken(u64),
}

impl Meter {
    /// One more step, where one is left.
    pub fn step(self) -> Option<Meter>
        ensures { MatchOption result (self ≡ SomeLeft 0) (λ after. Passes self 1 after) }
    {
        match self {
            Meter::Left(0) => None,
            Meter::Left(left) => Some(Meter::Left(left - 1)),
            Meter::Taken(steps) => Some(Meter::Taken(steps.saturating_add(1))),
        }
    }
}
