//! What a call answers, and the line that tells it.

ghost use Rattle.std.specs.Prelude.{◌≡◌, ◌≤◌, IfOk, IfErr};
ghost use Rattle.ecd_commands.specs.Outcomes.{status_of, line_of};
ghost use Rattle.ecd_commands.specs.Causes.{TellsLine};
ghost use Rattle.ecd_commands.specs.Answers.{outcome_of, bytes_in, HasDetail};

use crate::status::Status;
use ecd_list::OutOfMemory;
use ecd_outside::{Sink, put_all};
use std::alloc::Global;

/// How a call ends.
#[derive(Clone, Copy)]
pub enum Answer<'a> {
    /// What was asked for was written.
    Done,
    /// The data begins with no item of the root.
    NoEncoding,
    /// The schema breaks the rule at the place, a byte's offset. Lines and columns count from 1.
    Broken {
        line: u32,
        column: u32,
        place: u32,
        letter: &'static str,
        rule: u8,
    },
    /// The words are not in the table of commands.
    Usage,
    /// A file could not be begun or read.
    ReadFault,
    /// The output could not be written.
    WriteFault,
    /// The file of that name is larger than its limit.
    TooLarge {
        name: &'a str,
    },
    /// Want of memory.
    OutOfMemory,
    /// The C file is no spelling of a program: the first place of fault.
    NoSpelling {
        place: u32,
    },
    /// The C file breaks a rule of the subset, C1 to C7, in a statement of an item.
    BreaksC {
        rule: u8,
        item: u32,
        statement: u32,
    },
    /// The run is stuck at a statement of an item.
    Stuck {
        reason: u8,
        item: u32,
        statement: u32,
    },
    /// The run takes more steps than it may.
    Spent {
        steps: u64,
    },
    /// The C file has no function of that name with a reader's parameters.
    NoFunction {
        name: &'a str,
    },
    /// What is asked for is not built.
    NotBuilt,
}

impl<'a> From<OutOfMemory> for Answer<'a> {
    ghost use Rattle.ecd_commands.specs.declared.answer.Answer.TheVariants.{OutOfMemory as Wants};

    ghost from_gives = { λ _ answer. answer ≡ Wants };

    fn from(_refused: OutOfMemory) -> Answer<'a> {
        Answer::OutOfMemory
    }
}

impl Answer<'_> {
    /// The status that goes with it.
    pub fn status(&self) -> Status
        ensures { result ≡ status_of (outcome_of self.now) }
    {
        match *self {
            Answer::Done => Status::Done,
            Answer::NoEncoding => Status::Refused,
            Answer::Broken { .. } => Status::Schema,
            Answer::Usage => Status::Usage,
            Answer::ReadFault => Status::ReadFault,
            Answer::WriteFault => Status::WriteFault,
            Answer::TooLarge { .. } => Status::TooLarge,
            Answer::OutOfMemory => Status::OutOfMemory,
            Answer::NoSpelling { .. } | Answer::BreaksC { .. } => Status::CFile,
            Answer::Stuck { .. } => Status::Stuck,
            Answer::Spent { .. } => Status::Spent,
            Answer::NoFunction { .. } => Status::NoFunction,
            Answer::NotBuilt => Status::NotBuilt,
        }
    }
}

/// A line on standard error, with its line feed; nothing where there is none.
#[derive(Drop)]
pub enum Line {
    Fixed(&'static str),
    Made(String),
}

/// The line of want of memory, which takes none.
pub const OUT_OF_MEMORY: &str = "out of memory\n";

/// The line of an answer. It takes memory only where it says more than the status.
pub fn line_for(alloc: Global, answer: &Answer<'_>) -> Result<Line, OutOfMemory>
    ensures line { IfOk result (λ line. bytes_in line ≡ line_of (outcome_of answer.now)) }
    ensures fails { IfErr result (λ _. HasDetail (outcome_of answer.now)) }
{
    match *answer {
        Answer::Done => Ok(Line::Fixed("")),
        Answer::NoEncoding => Ok(Line::Fixed("refused: no encoding\n")),
        Answer::Broken {
            line,
            column,
            place,
            letter,
            rule,
        } => Ok(Line::Made(format!(in alloc;
            "schema {line}:{column} byte {place} rule {letter}{rule}\n"
        )?)),
        Answer::Usage => Ok(Line::Fixed("usage: check, compile, read, write, copy, run, sample\n")),
        Answer::ReadFault => Ok(Line::Fixed("read fault\n")),
        Answer::WriteFault => Ok(Line::Fixed("write fault\n")),
        Answer::TooLarge { name } => Ok(Line::Made(format!(in alloc; "too large: {name}\n")?)),
        Answer::OutOfMemory => Ok(Line::Fixed(OUT_OF_MEMORY)),
        Answer::NoSpelling { place } => Ok(Line::Made(format!(in alloc;
            "c file rule C0 byte {place}\n"
        )?)),
        Answer::BreaksC {
            rule,
            item,
            statement,
        } => Ok(Line::Made(format!(in alloc;
            "c file rule C{rule} item {item} statement {statement}\n"
        )?)),
        Answer::Stuck {
            reason,
            item,
            statement,
        } => Ok(Line::Made(format!(in alloc;
            "stuck {reason} item {item} statement {statement}\n"
        )?)),
        Answer::Spent { steps } => Ok(Line::Made(format!(in alloc; "spent {steps}\n")?)),
        Answer::NoFunction { name } => Ok(Line::Made(format!(in alloc; "no function {name}\n")?)),
        Answer::NotBuilt => Ok(Line::Fixed("not built\n")),
    }
}

/// Writes a line. A fault changes nothing else.
pub fn tell<E: Sink>(line: &Line, err: &mut E)
    ensures line { TellsLine (bytes_in line.now) (E.written err.old) (E.written err.new) (E.faults err.old) (E.faults err.new) }
    ensures later { E.faults err.old ≤ E.faults err.new }
{
    let _told = match line {
        Line::Fixed(text) => put_all(err, text.as_bytes()),
        Line::Made(text) => put_all(err, text.as_bytes()),
    };
}
