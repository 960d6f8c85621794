//! The contents of files, and the answers to those that are not read.

ghost use Rattle.std.specs.Prelude.{◌≡◌, ◌≤◌, true, IfOk, IfErr, ◌+◌};
ghost use Rattle.ecd_outside.specs.Told.{TakesAtMost};
ghost use Rattle.ecd_commands.specs.Files.{IsRead, wanted};
ghost use Rattle.ecd_commands.specs.Causes.{IsUnread};
ghost use Rattle.ecd_commands.specs.Answers.{outcome_of};

use crate::answer::Answer;
use ecd_list::ByteList;
use ecd_outside::{Files, ReadRefusal, read_file};
use std::alloc::Global;

/// The most bytes of a file of data or of a value.
pub const MOST_DATA: usize = 16_777_216;

/// The contents of the file of that name, which has at most `limit` bytes.
pub fn contents_of<'a, F: Files>(
    alloc: Global,
    files: &mut F,
    name: &'a str,
    limit: usize,
) -> Result<ByteList, Answer<'a>>
    ensures is_read { IfOk result (λ bytes. IsRead (F.told files.old) (wanted name.now limit) bytes) }
    ensures unread { IfErr result (λ answer. IsUnread (F.told files.old) (wanted name.now limit) (F.faults files.old) (F.faults files.new) (F.begun files.new) (F.left files.new) (outcome_of answer)) }
    ensures few { F.begun files.new ≡ true → TakesAtMost (F.told files.old) name.now (F.left files.new) (limit + 1) }
    ensures told { F.told files.new ≡ F.told files.old }
    ensures later { F.faults files.old ≤ F.faults files.new }
{
    match read_file(alloc, files, name, limit) {
        Ok(bytes) => Ok(bytes),
        Err(ReadRefusal::Fault) => Err(Answer::ReadFault),
        Err(ReadRefusal::TooLarge) => Err(Answer::TooLarge { name }),
        Err(ReadRefusal::OutOfMemory) => Err(Answer::OutOfMemory),
    }
}
