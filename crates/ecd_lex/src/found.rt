ghost use Rattle.std.specs.Prelude.{◌≡◌};

use crate::token::TokenKind;
use ecd_list::OutOfMemory;

/// The lexeme at the front of a text.
#[derive(Debug, Drop)]
pub struct Found {
    /// The place behind it, from the front.
    pub end: usize,
    pub kind: TokenKind,
    /// Where the number begins in which it ends.
    pub number: Option<usize>,
}

/// Why no lexeme stands at the front of a text.
#[derive(Clone, Copy, Debug, PartialEq, Eq)]
pub enum Flaw {
    /// A broken rule, how far from the front.
    At { offset: usize, rule: u8 },
    OutOfMemory,
}

impl From<OutOfMemory> for Flaw {
    ghost use Rattle.ecd_lex.specs.declared.found.Flaw.TheVariants.{OutOfMemory as Unheld};

    ghost from_gives = { λ _ e. e ≡ Unheld };

    fn from(_refused: OutOfMemory) -> Flaw {
        Flaw::OutOfMemory
    }
}
