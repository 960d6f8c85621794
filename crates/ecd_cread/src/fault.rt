use ecd_list::OutOfMemory;

/// Why a text is answered no program.
#[derive(Clone, Copy, Debug, PartialEq, Eq)]
pub enum TextFault {
    /// The first lexeme, or byte that begins no lexeme, that no spelling has behind those before it stands there, or the
    /// text ends there too early.
    At {
        /// The place of its first byte, from 0; or the length of the text.
        place: u32,
    },
    /// Want of memory, the stack included.
    OutOfMemory,
}

impl From<OutOfMemory> for TextFault {
    ghost use Rattle.std.specs.Prelude.{◌≡◌};
    ghost use Rattle.ecd_cread.specs.declared.fault.TextFault.TheVariants.{OutOfMemory as NoMemory};

    ghost from_gives = { λ _ e. e ≡ NoMemory };

    fn from(_refused: OutOfMemory) -> TextFault {
        TextFault::OutOfMemory
    }
}
