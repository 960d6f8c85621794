ghost use Rattle.std.specs.Prelude.{◌≡◌};
ghost use Rattle.ecd_ceval.specs.Outcomes.{number_of};

use ecd_cast::value::Value;

/// Why a statement is stuck.
#[derive(Clone, Copy, Debug)]
pub enum Reason {
    /// The program breaks a rule of validity.
    Rule,
    /// It reads a byte outside its block.
    Read,
    /// It writes a byte outside its block.
    Write,
    /// It moves a pointer past its block's end.
    Move,
    /// It shifts by 64 or more.
    Shift,
    /// It reads an unset cell.
    Unset,
}

impl Reason {
    /// Its number in the table of reasons.
    pub fn number(self) -> u8
        ensures { result ≡ number_of self }
    {
        match self {
            Reason::Rule => 0,
            Reason::Read => 1,
            Reason::Write => 2,
            Reason::Move => 3,
            Reason::Shift => 4,
            Reason::Unset => 5,
        }
    }
}

/// A value, or the reason that there is none.
pub type Outcome = Result<Value, Reason>;
