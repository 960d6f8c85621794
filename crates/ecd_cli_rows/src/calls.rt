//! Calls of the command line on files and sinks in memory.

use ecd_commands::{Status, run};
use ecd_list::{ByteList, OutOfMemory};
use ecd_outside::{CallList, FileList, MemoryFiles, MemorySink, StoredFile};
use std::alloc::Global;

/// Room for every text and line of these tests.
pub(crate) const AMPLE: usize = 65_536;

/// The files `s` and `d` of a call, the calls that are to fail, and the room of the two sinks.
#[derive(Clone, Copy)]
pub(crate) struct Outside<'a> {
    pub(crate) contents: Option<&'a [u8]>,
    pub(crate) input: Option<&'a [u8]>,
    pub(crate) read_fails: Option<u64>,
    pub(crate) write_fails: Option<u64>,
    pub(crate) out_room: usize,
    pub(crate) err_room: usize,
}

/// An outside without faults whose file `s` has these contents.
pub(crate) fn with_file(contents: &str) -> Outside<'_> {
    with_bytes(contents.as_bytes())
}

/// The same, with bytes that may be no text.
pub(crate) fn with_bytes(contents: &[u8]) -> Outside<'_> {
    Outside {
        contents: Some(contents),
        input: None,
        read_fails: None,
        write_fails: None,
        out_room: AMPLE,
        err_room: AMPLE,
    }
}

/// What a call answered and wrote, and the faults of the files and of `out`.
#[derive(Drop)]
pub(crate) struct Answer {
    pub(crate) status: Status,
    pub(crate) out: Vec<u8>,
    pub(crate) err: Vec<u8>,
    pub(crate) read_faults: u64,
    pub(crate) write_faults: u64,
}

fn calls(alloc: Global, call: Option<u64>) -> Result<CallList, OutOfMemory> {
    let mut calls = CallList::new(alloc);
    if let Some(call) = call {
        calls.push(call)?;
    }
    Ok(calls)
}

/// Runs the words, which spaces part, on that outside.
pub(crate) fn call(
    alloc: Global,
    words: &str,
    outside: Outside<'_>,
) -> Result<Answer, OutOfMemory> {
    let mut list = Vec::new(alloc);
    for word in words.split(' ') {
        list.push(String::from_str(alloc, word)?)?;
    }
    let mut stored = FileList::new(alloc);
    if let Some(contents) = outside.contents {
        stored.push(StoredFile {
            name: ByteList::from_slice(alloc, b"s")?,
            contents: ByteList::from_slice(alloc, contents)?,
        })?;
    }
    if let Some(input) = outside.input {
        stored.push(StoredFile {
            name: ByteList::from_slice(alloc, b"d")?,
            contents: ByteList::from_slice(alloc, input)?,
        })?;
    }
    let mut files = MemoryFiles::new(stored, calls(alloc, outside.read_fails)?);
    let mut out = MemorySink::new(alloc, outside.out_room, calls(alloc, outside.write_fails)?)?;
    let mut err = MemorySink::new(alloc, outside.err_room, CallList::new(alloc))?;
    let status = run(alloc, &list, &mut files, &mut out, &mut err);
    Ok(Answer {
        status,
        out: Vec::from_slice(alloc, out.written())?,
        err: Vec::from_slice(alloc, err.written())?,
        read_faults: files.plan().faults,
        write_faults: out.plan().faults,
    })
}

/// Whether the words over a file `s` answer the status and the line, without a fault, and write only where they are done.
pub(crate) fn is_answered(
    alloc: Global,
    words: &str,
    contents: &str,
    status: Status,
    line: &str,
) -> Result<bool, OutOfMemory> {
    let answer = call(alloc, words, with_file(contents))?;
    Ok(
        answer.status == status
            && answer.err.as_slice() == line.as_bytes()
            && answer.out.is_empty() == (status != Status::Done)
            && answer.read_faults == 0
            && answer.write_faults == 0,
    )
}
