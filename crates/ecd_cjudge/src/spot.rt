//! Where faults are, and how they are taken in.

ghost use Rattle.std.specs.Prelude.{◌≡◌, [], ◌∷◌};
ghost use Rattle.ecd_cast.specs.Kinds.{unless};
ghost use Rattle.ecd_cjudge.specs.Faults.{Finds, place_as, spot_rank};

use ecd_first::{First, Place};

/// Where a statement stands: its item, and its number there. 0 is the item's head.
#[derive(Clone, Copy, Debug)]
pub(crate) struct Spot {
    pub(crate) item: u32,
    pub(crate) statement: u32,
}

/// By item, then by statement.
impl Place for Spot {
    ghost rank = { spot_rank };

    fn comes_before(self, other: Spot) -> bool {
        if self.item != other.item {
            self.item < other.item
        } else {
            self.statement < other.statement
        }
    }
}

/// Takes in a broken rule: C1 is 1, and so on.
pub(crate) fn note(first: &mut First<Spot>, spot: Spot, rule: u8)
    ensures { Finds first.old first.new (place_as spot) (rule ∷ []) }
{
    first.note(true, spot, rule);
}

/// Takes in the rule where the test fails.
pub(crate) fn unless(first: &mut First<Spot>, holds: bool, spot: Spot, rule: u8)
    ensures { Finds first.old first.new (place_as spot) (unless holds rule) }
{
    first.note(!holds, spot, rule);
}
