//! The answers of the command line.

ghost use Rattle.std.specs.Prelude.{◌≡◌};
ghost use Rattle.ecd_commands.specs.Outcomes.{number_of};

/// How a call of the program ended. Its number is its place in this list, from 0.
#[derive(Clone, Copy, Debug, PartialEq, Eq)]
pub enum Status {
    /// What was asked for was written.
    Done,
    /// The data or the value was refused.
    Refused,
    /// The schema breaks a rule.
    Schema,
    /// The words are not in the table of commands.
    Usage,
    /// A file could not be begun or read.
    ReadFault,
    /// The output could not be written.
    WriteFault,
    /// A file is larger than its limit.
    TooLarge,
    /// Want of memory.
    OutOfMemory,
    /// The C file is no valid program of the subset.
    CFile,
    /// The run of a C function is stuck.
    Stuck,
    /// The run of a C function takes more steps than are allowed.
    Spent,
    /// The value is no text of the notation.
    Notation,
    /// The C file has no such function.
    NoFunction,
    /// What is asked for is not built.
    NotBuilt,
}

impl Status {
    /// The exit status of the program.
    pub fn number(self) -> u8
        ensures { result ≡ number_of self }
    {
        self as u8
    }
}
