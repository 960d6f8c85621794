ghost use Rattle.std.specs.Prelude.{◌≡◌};
ghost use Rattle.ecd_judge.specs.Refusals.{of_lexemes_is, of_grammar_is, of_names_is};

use ecd_lex::LexFault;
use ecd_list::OutOfMemory;
use ecd_names::NameFault;
use ecd_parse::ParseFault;
use thiserror::Error;

/// Why a schema is refused. A place is a byte's offset in the schema, from 0.
#[derive(Clone, Copy, Debug, PartialEq, Eq, Error)]
pub enum Refusal {
    /// T0: the bytes are no UTF-8. The place is the length of the longest front that is.
    #[error("rule T0 at byte {place}")]
    NotUtf8 { place: u32 },
    /// The first broken rule of X1 to X6.
    #[error("rule X{rule} at byte {place}")]
    Lex { place: u32, rule: u8 },
    /// P1 at the first unexpected token, or P2 at the 49th open bracket.
    #[error("rule P{rule} at byte {place}")]
    Parse { place: u32, rule: u8 },
    /// The first broken rule of N1 to N5.
    #[error("rule N{rule} at byte {place}")]
    Name { place: u32, rule: u8 },
    /// No rule is broken, and the compiler has no part yet that the schema needs. It is the compiler's answer, and never one of `judge`.
    #[error("not built")]
    NotBuilt,
    /// Want of memory, the stack included.
    #[error("out of memory")]
    OutOfMemory,
}

impl From<OutOfMemory> for Refusal {
    ghost use Rattle.ecd_judge.specs.declared.refusal.Refusal.TheVariants.{OutOfMemory as Wants};

    ghost from_gives = { λ _ r. r ≡ Wants };

    fn from(_refused: OutOfMemory) -> Refusal {
        Refusal::OutOfMemory
    }
}

/// A fault of the lexemes as a refusal.
pub(crate) fn of_lexemes(fault: LexFault) -> Refusal
    ensures { result ≡ of_lexemes_is fault }
{
    match fault {
        LexFault::At { place, rule } => Refusal::Lex { place, rule },
        LexFault::OutOfMemory => Refusal::OutOfMemory,
    }
}

/// A fault of the grammar as a refusal.
pub(crate) fn of_grammar(fault: ParseFault) -> Refusal
    ensures { result ≡ of_grammar_is fault }
{
    match fault {
        ParseFault::Unexpected { place } => Refusal::Parse { place, rule: 1 },
        ParseFault::TooNested { place } => Refusal::Parse { place, rule: 2 },
        ParseFault::OutOfMemory => Refusal::OutOfMemory,
    }
}

/// A fault of the names as a refusal.
pub(crate) fn of_names(fault: NameFault) -> Refusal
    ensures { result ≡ of_names_is fault }
{
    match fault {
        NameFault::At { place, rule } => Refusal::Name { place, rule },
        NameFault::OutOfMemory => Refusal::OutOfMemory,
    }
}
