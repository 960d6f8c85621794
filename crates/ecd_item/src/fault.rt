//! Why no item could be read.

ghost use Rattle.std.specs.Prelude.{◌≡◌};
ghost use Rattle.ecd_item.specs.declared.fault.Stop.TheVariants as stop;
ghost use Rattle.ecd_item.specs.Told.{told_result};

use ecd_item_laws::Fault;
use ecd_list::OutOfMemory;
use thiserror::Error;

/// Why no item could be read.
#[derive(Clone, Copy, Debug, PartialEq, Eq, Error)]
pub enum ItemFault {
    /// The first head place with a cause, in bytes from 0, and the cause's number.
    #[error("at byte {place}: cause {cause}")]
    At {
        /// The place of the head.
        place: usize,
        /// The number of the `Cause`.
        cause: u8,
    },
    /// Memory ran out.
    #[error("out of memory")]
    OutOfMemory,
}

/// Why reading stopped.
#[derive(Clone, Copy, Debug, PartialEq, Eq)]
pub enum Stop {
    /// Memory ran out.
    Memory,
    /// A fault stands in the bytes.
    Fault(Fault),
}

impl From<OutOfMemory> for Stop {
    ghost from_gives = { λ _ e. e ≡ stop.Memory };

    fn from(_refused: OutOfMemory) -> Stop {
        Stop::Memory
    }
}

/// What was read, or the fault as a caller is told it.
pub fn told<T: Drop>(read: Result<T, Stop>) -> Result<T, ItemFault>
    ensures { result ≡ told_result read }
{
    match read {
        Ok(found) => Ok(found),
        Err(Stop::Memory) => Err(ItemFault::OutOfMemory),
        Err(Stop::Fault(fault)) => Err(ItemFault::At {
            place: fault.place,
            cause: fault.cause.number(),
        }),
    }
}
