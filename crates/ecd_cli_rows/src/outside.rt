//! Files and sinks of the outside.

use ecd_list::{ByteList, OutOfMemory};
use ecd_outside::{
    CallList, FileList, MemoryFiles, MemorySink, ReadRefusal, Sink, StdFiles, StdSink, StoredFile,
    put_all, read_file,
};
use std::alloc::Global;
use std::fmt::Display;
use std::io::{self, Print};
use std::test::Fail;
use std::{env, fs};

/// One file `s` with the contents `x = 5`, and one call that is to fail, where it is given.
fn one_file(alloc: Global, fails: Option<u64>) -> Result<MemoryFiles, OutOfMemory> {
    let mut files = FileList::new(alloc);
    files.push(StoredFile {
        name: ByteList::from_slice(alloc, b"s")?,
        contents: ByteList::from_slice(alloc, b"x = 5")?,
    })?;
    let mut calls = CallList::new(alloc);
    if let Some(call) = fails {
        calls.push(call)?;
    }
    Ok(MemoryFiles::new(files, calls))
}

#[test]
fn reading_whole_tells_faults_limits_and_missing_names(rt: HostRuntime) -> Result<(), Fail> {
    // name, limit, the call that is to fail, the answer, the count of calls, the count of faults
    let rows = [
        ("s", 5, None, Ok(5), 3, 0),
        ("s", 7, None, Ok(5), 3, 0),
        ("s", 4, None, Err(ReadRefusal::TooLarge), 2, 0),
        ("t", 5, None, Err(ReadRefusal::Fault), 1, 0),
        ("t", 5, Some(0), Err(ReadRefusal::Fault), 1, 0),
        ("s", 5, Some(0), Err(ReadRefusal::Fault), 1, 1),
        ("s", 5, Some(1), Err(ReadRefusal::Fault), 2, 1),
        ("s", 5, Some(2), Err(ReadRefusal::Fault), 3, 1),
        ("s", 5, Some(3), Ok(5), 3, 0),
    ];
    for (name, limit, fails, want, calls, faults) in rows {
        let mut files = one_file(rt.alloc(), fails)?;
        let answer = read_file(rt.alloc(), &mut files, name, limit).map(|bytes| bytes.len());
        assert_eq!(rt; answer, want, "{name} up to {limit}");
        assert_eq!(rt; files.plan().calls, calls, "{name} up to {limit}");
        assert_eq!(rt; files.plan().faults, faults, "{name} up to {limit}");
    }
    Ok(())
}

#[test]
fn writing_whole_stops_where_the_sink_is_full_or_fails(rt: HostRuntime) -> Result<(), Fail> {
    // room, the call that is to fail, whether all is written, what is written, the count of faults
    let rows = [
        (5, None, true, "x = 5", 0),
        (9, Some(1), true, "x = 5", 0),
        (3, None, false, "x =", 1),
        (0, None, false, "", 1),
        (9, Some(0), false, "", 1),
    ];
    for (room, fails, all, written, faults) in rows {
        let mut calls = CallList::new(rt.alloc());
        if let Some(call) = fails {
            calls.push(call)?;
        }
        let mut sink = MemorySink::new(rt.alloc(), room, calls)?;
        assert_eq!(rt; put_all(&mut sink, b"x = 5").is_ok(), all, "room {room}");
        assert_eq!(rt; sink.written(), written.as_bytes(), "room {room}");
        assert_eq!(rt; sink.plan().faults, faults, "room {room}");
    }
    Ok(())
}

#[test]
fn system_files_are_read_and_missing_ones_are_faults(rt: HostRuntime) -> Result<(), Fail> {
    let mut path = env::temp_dir(&rt)?;
    path.push("ecd_outside_system_file")?;
    fs::write(&rt, path.as_path(), "x = 5")?;
    let mut files = StdFiles::new(rt);
    let name = path.as_path().as_str();
    let bytes = read_file(rt.alloc(), &mut files, name, 7)?;
    assert_eq!(rt; bytes.as_slice(), b"x = 5".as_slice());
    fs::remove_file(&rt, path.as_path())?;
    let again = read_file(rt.alloc(), &mut files, name, 7).map(|bytes| bytes.len());
    assert_eq!(rt; again, Err(ReadRefusal::Fault));
    Ok(())
}

#[test]
fn a_folder_is_begun_and_cannot_be_read(rt: HostRuntime) -> Result<(), Fail> {
    let folder = env::temp_dir(&rt)?;
    let mut files = StdFiles::new(rt);
    let answer = read_file(rt.alloc(), &mut files, folder.as_path().as_str(), 7);
    assert_eq!(rt; answer.map(|bytes| bytes.len()), Err(ReadRefusal::Fault));
    Ok(())
}

/// A stream that takes at most so many bytes at a time, and none where that is 0.
#[derive(Drop)]
struct Narrow {
    width: usize,
}

impl Print for Narrow {
    fn print<D: Display + Drop>(&self, _value: D) -> io::Result<()> {
        Ok(())
    }

    fn println<D: Display + Drop>(&self, _value: D) -> io::Result<()> {
        Ok(())
    }

    fn write_all(&self, _bytes: &[u8]) -> io::Result<()> {
        Ok(())
    }

    fn write_some(&self, bytes: &[u8]) -> io::Result<usize> {
        Ok(bytes.len().min(self.width))
    }
}

#[test]
fn a_stream_that_takes_less_is_told(rt: HostRuntime) -> Result<(), Fail> {
    let mut sink = StdSink::new(Narrow { width: 2 });
    assert_eq!(rt; sink.put(b"text")?, 2);
    assert_eq!(rt; sink.put(b"t")?, 1);
    let mut stuck = StdSink::new(Narrow { width: 0 });
    assert!(rt; stuck.put(b"text").is_err());
    assert_eq!(rt; stuck.put(b"")?, 0);
    Ok(())
}

#[test]
fn refusals_are_told_in_words(rt: HostRuntime) -> Result<(), Fail> {
    for (refusal, words) in [
        (ReadRefusal::Fault, "read fault"),
        (ReadRefusal::TooLarge, "too large"),
        (ReadRefusal::OutOfMemory, "out of memory"),
    ] {
        let text = format!(in rt.alloc(); "{refusal}")?;
        assert_eq!(rt; text.as_str(), words);
    }
    Ok(())
}

#[test]
fn standard_error_takes_bytes(rt: HostRuntime) -> Result<(), Fail> {
    let mut sink = StdSink::new(rt.stderr());
    assert_eq!(rt; sink.put(b"a line\n")?, 7);
    assert_eq!(rt; sink.put(b"")?, 0);
    Ok(())
}
