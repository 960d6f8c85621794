//! How the pieces of a call end.

ghost use Rattle.std.specs.Prelude.{◌≡◌};
ghost use Rattle.ecd_ceval.specs.declared.stop.Stop.TheVariants.{OutOfMemory as NoMemory, Stuck as IsStuck};
ghost use Rattle.ecd_ceval.specs.Outcomes.{number_of};

use crate::reason::Reason;
use ecd_list::OutOfMemory;

/// How a piece of a function ends that is not stopped.
#[derive(Clone, Copy, Debug)]
pub enum Flow {
    Falls,
    Returns(u64),
}

/// Why a call goes no further.
#[derive(Clone, Copy, Debug)]
pub enum Stop {
    Stuck {
        reason: u8,
        item: u32,
        statement: u32,
    },
    Spent,
    OutOfMemory,
}

impl From<OutOfMemory> for Stop {
    ghost from_gives = { λ _ stop. stop ≡ NoMemory };

    fn from(_refused: OutOfMemory) -> Stop {
        Stop::OutOfMemory
    }
}

/// Stuck at a statement of an item.
pub fn stuck(item: u32, statement: u32, reason: Reason) -> Stop
    ensures { result ≡ IsStuck (number_of reason) item statement }
{
    Stop::Stuck {
        reason: reason.number(),
        item,
        statement,
    }
}
