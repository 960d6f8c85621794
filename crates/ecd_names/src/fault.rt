use ecd_list::OutOfMemory;
use thiserror::Error;

/// Why the names of a schema are refused.
#[derive(Clone, Copy, Debug, PartialEq, Eq, Error)]
pub enum NameFault {
    /// The first of the rules N1 to N5 that the schema breaks.
    #[error("rule N{rule} at byte {place}")]
    At {
        /// The place of the name or the parenthesis, from 0.
        place: u32,
        /// 1 for N1, and so on.
        rule: u8,
    },
    /// Want of memory, the stack included.
    #[error("out of memory")]
    OutOfMemory,
}

impl From<OutOfMemory> for NameFault {
    ghost use Rattle.std.specs.Prelude.{◌≡◌};
    ghost use Rattle.ecd_names.specs.declared.fault.NameFault.TheVariants.{OutOfMemory as Wants};

    ghost from_gives = { λ _ e. e ≡ Wants };

    fn from(_refused: OutOfMemory) -> NameFault {
        NameFault::OutOfMemory
    }
}
