//! Faults of the outside.

use crate::c_files::c_text;
use crate::calls::{AMPLE, Outside, call, with_file};
use ecd_commands::Status;
use ecd_list::OutOfMemory;
use std::alloc::Global;
use std::test::Fail;

/// An outside with a thin schema whose call of that number fails at the files.
fn failing_read(call: u64) -> Outside<'static> {
    let mut outside = with_file("x = 5");
    outside.read_fails = Some(call);
    outside
}

/// An outside with a thin schema whose call of that number fails at `out`.
fn failing_write(call: u64) -> Outside<'static> {
    let mut outside = with_file("x = 5");
    outside.write_fails = Some(call);
    outside
}

/// An outside with a thin schema and that much room.
fn with_room(out_room: usize, err_room: usize) -> Outside<'static> {
    let mut outside = with_file("x = 5");
    outside.out_room = out_room;
    outside.err_room = err_room;
    outside
}

#[test]
fn each_fault_is_told_and_a_front_is_written(rt: HostRuntime) -> Result<(), Fail> {
    let whole = call(rt.alloc(), "compile s x 0", with_file("x = 5"))?.out;
    let (read, write) = (Status::ReadFault, Status::WriteFault);
    // The outside, the answer, its line, the bytes that are written, and the faults of the files and of `out`.
    let rows = [
        (failing_read(0), read, "read fault\n", 0, (1, 0)),
        (failing_read(1), read, "read fault\n", 0, (1, 0)),
        (failing_read(2), read, "read fault\n", 0, (1, 0)),
        (failing_read(3), Status::Done, "", whole.len(), (0, 0)),
        (failing_write(0), write, "write fault\n", 0, (0, 1)),
        (failing_write(1), Status::Done, "", whole.len(), (0, 0)),
        (with_room(10, AMPLE), write, "write fault\n", 10, (0, 1)),
        (with_room(10, 5), write, "write", 10, (0, 1)),
        (with_room(AMPLE, 0), Status::Done, "", whole.len(), (0, 0)),
    ];
    for (outside, status, line, written, faults) in rows {
        let answer = call(rt.alloc(), "compile s x 0", outside)?;
        assert_eq!(rt; answer.status, status);
        assert_eq!(rt; answer.err.as_slice(), line.as_bytes());
        assert_eq!(rt; answer.out.len(), written);
        assert!(rt; whole.starts_with(answer.out.as_slice()));
        assert_eq!(rt; (answer.read_faults, answer.write_faults), faults);
    }
    Ok(())
}

/// Whether the words over a file `s` and the data 05 tell each fault of the six calls at the two files, and none behind them.
fn tell_each_read_fault(alloc: Global, words: &str, contents: &str) -> Result<bool, OutOfMemory> {
    for fails in 0..7u64 {
        let mut outside = with_file(contents);
        outside.input = Some(b"\x05");
        outside.read_fails = Some(fails);
        let answer = call(alloc, words, outside)?;
        let is_told = if fails < 6 {
            answer.status == Status::ReadFault
                && answer.err.as_slice() == b"read fault\n".as_slice()
                && answer.out.is_empty()
                && answer.read_faults == 1
        } else {
            answer.status == Status::Done && answer.err.is_empty() && answer.read_faults == 0
        };
        if !is_told {
            return Ok(false);
        }
    }
    Ok(true)
}

#[test]
fn a_fault_at_either_file_is_told(rt: HostRuntime) -> Result<(), Fail> {
    let alloc = rt.alloc();
    let text = c_text(alloc, "1", "uint64_t n = 0ull;")?;
    assert!(rt; tell_each_read_fault(alloc, "read s x 0 d", "x = 5")?);
    assert!(rt; tell_each_read_fault(alloc, "run s take d 1000", text.as_str())?);
    Ok(())
}
