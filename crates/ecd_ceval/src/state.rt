//! What a call changes: the blocks, and the count of its steps.

ghost use Rattle.std.specs.Prelude.{◌≡◌, [], ◌∷◌, MatchResult};
ghost use Rattle.ecd_cast.specs.Memory.{Step};
ghost use Rattle.ecd_ceval.specs.declared.meter.Meter.TheVariants.{Left as SomeLeft};
ghost use Rattle.ecd_ceval.specs.declared.stop.Stop.TheVariants.{Spent as IsSpent};
ghost use Rattle.ecd_ceval.specs.Following.{Whole};

use crate::blocks::Held;
use crate::meter::Meter;
use crate::stop::Stop;

/// The blocks, and the steps so far.
#[derive(Debug, Drop)]
pub struct State<'a> {
    pub blocks: Vec<Held<'a>>,
    pub meter: Meter,
}

impl<'a> State<'a> {
    /// Counts a step, where the limit allows one.
    pub fn tick(&mut self) -> Result<(), Stop>
        ensures { MatchResult result (λ _. Whole (Step ∷ []) self.old self.new) (λ stop. (stop ≡ IsSpent) × (self.old.meter ≡ SomeLeft 0) × (self.new ≡ self.old)) }
    {
        match self.meter.step() {
            Some(meter) => {
                self.meter = meter;
                Ok(())
            }
            None => Err(Stop::Spent),
        }
    }
}
