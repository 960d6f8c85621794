use ecd_list::OutOfMemory;
use thiserror::Error;

/// Why a program of the C subset, or a text of it, is refused.
#[derive(Clone, Copy, Debug, PartialEq, Eq, Error)]
pub enum CFault {
    /// C0: the text spells no program. The place of the first lexeme, or byte that begins none, that no spelling has behind those before it.
    #[error("rule C0 at byte {place}")]
    Text {
        /// The place of its first byte, from 0; or the length of the text.
        place: u32,
    },
    /// The first of the rules C1 to C7 that the program breaks.
    #[error("rule C{rule} item {item} statement {statement}")]
    Rule {
        /// 1 for C1, and so on.
        rule: u8,
        /// The number of the struct or function, from 0 in text order.
        item: u32,
        /// The number of the statement in its function, from 1 in text order; 0 is the head.
        statement: u32,
    },
    /// Want of memory, the stack included.
    #[error("out of memory")]
    OutOfMemory,
}

impl From<OutOfMemory> for CFault {
    ghost use Rattle.std.specs.Prelude.{◌≡◌};
    ghost use Rattle.ecd_cast.specs.declared.fault.CFault.TheVariants.{OutOfMemory as Wants};

    ghost from_gives = { λ _ e. e ≡ Wants };

    fn from(_refused: OutOfMemory) -> CFault {
        CFault::OutOfMemory
    }
}
