//! Files, brackets and nestings at their limits.

use crate::c_files::{c_text, call_on};
use crate::calls::{AMPLE, is_answered};
use ecd_commands::{Status, run};
use ecd_list::OutOfMemory;
use ecd_outside::{CallList, Failed, Files, MemorySink};
use std::alloc::Global;
use std::test::Fail;

#[test]
fn the_49th_open_bracket_is_named(rt: HostRuntime) -> Result<(), Fail> {
    let mut schema = String::from_str(rt.alloc(), "a = ")?;
    for _ in 0..49 {
        schema.push('[')?;
    }
    let line = "schema 1:53 byte 52 rule P2\n";
    let told = is_answered(
        rt.alloc(),
        "check s a 0",
        schema.as_str(),
        Status::Schema,
        line,
    )?;
    assert!(rt; told);
    Ok(())
}

/// The middle inside so many pairs of opening and closing, between the front and the end.
fn nested(
    alloc: Global,
    front: &str,
    count: u32,
    (open, middle, close): (&str, &str, &str),
    end: &str,
) -> Result<String, OutOfMemory> {
    let mut text = String::from_str(alloc, front)?;
    for _ in 0..count {
        text.push_str(open)?;
    }
    text.push_str(middle)?;
    for _ in 0..count {
        text.push_str(close)?;
    }
    text.push_str(end)?;
    Ok(text)
}

#[test]
fn arguments_deeper_than_the_most_levels_are_want_of_memory(rt: HostRuntime) -> Result<(), Fail> {
    let wants = Status::OutOfMemory;
    // The innermost name is a level too.
    for (count, middle, status, line) in [
        (249, "int", Status::NotBuilt, "not built\n"),
        (249, "c", Status::Schema, "schema 1:503 byte 502 rule N2\n"),
        (250, "int", wants, "out of memory\n"),
        (250, "c", wants, "out of memory\n"),
    ] {
        let parts = ("b<", middle, ">");
        let schema = nested(rt.alloc(), "a = ", count, parts, "\nb<t> = [t]\n")?;
        for words in ["check s a 0", "compile s a 0"] {
            let told = is_answered(rt.alloc(), words, schema.as_str(), status, line)?;
            assert!(rt; told, "{words} {count} {middle}");
        }
    }
    Ok(())
}

#[test]
fn statements_and_expressions_deeper_than_the_most_levels_are_want_of_memory(
    rt: HostRuntime,
) -> Result<(), Fail> {
    let sum = ("(0ull + ", "0ull", ")");
    let choice = ("if (n < len) { ", "", "} else { }\n");
    // The sums stand in a statement and around a number, the choices around a test of a name: two levels more.
    for (count, status, line) in [
        (248, Status::Done, ""),
        (249, Status::OutOfMemory, "out of memory\n"),
    ] {
        let sums = nested(rt.alloc(), "uint64_t n = ", count, sum, ";")?;
        let choices = nested(rt.alloc(), "uint64_t n = 0ull;\n", count, choice, "")?;
        for first in [sums.as_str(), choices.as_str()] {
            let text = c_text(rt.alloc(), "1", first)?;
            let answer = call_on(rt.alloc(), "run s take d 1000", text.as_str())?;
            assert_eq!(rt; answer.status, status, "{count}");
            assert_eq!(rt; answer.err.as_slice(), line.as_bytes());
        }
    }
    Ok(())
}

#[test]
fn a_schema_of_the_limit_is_read_and_a_longer_one_is_too_large(
    rt: HostRuntime,
) -> Result<(), Fail> {
    let mut schema = String::from_str(rt.alloc(), "x = 5;")?;
    for _ in 6..262_144 {
        schema.push('-')?;
    }
    let taken = is_answered(rt.alloc(), "check s x 0", schema.as_str(), Status::Done, "")?;
    assert!(rt; taken);
    schema.push('-')?;
    let line = "too large: s\n";
    let told = is_answered(
        rt.alloc(),
        "check s x 0",
        schema.as_str(),
        Status::TooLarge,
        line,
    )?;
    assert!(rt; told);
    Ok(())
}

/// Files that tell nothing, each with so many bytes 0.
#[derive(Drop)]
struct LongFiles {
    length: usize,
    left: Option<usize>,
}

impl Files for LongFiles {
    ghost use Rattle.std.specs.Prelude.{None, is_some};

    ghost told = { λ _. None };

    ghost left = { λ _. None };

    ghost begun = { λ f. is_some f.left };

    ghost faults = { λ _. 0 };

    fn begin(&mut self, _name: &str) -> Result<(), Failed> {
        self.left = Some(self.length);
        Ok(())
    }

    fn read(&mut self, into: &mut [u8]) -> Result<usize, Failed> {
        let Some(left) = self.left else {
            unreachable!();
        };
        let count = left.min(into.len());
        self.left = Some(left - count);
        Ok(count)
    }
}

#[test]
fn a_c_file_of_the_limit_is_read_and_a_longer_one_is_too_large(
    rt: HostRuntime,
) -> Result<(), Fail> {
    let mut words = Vec::new(rt.alloc());
    for word in ["run", "s", "take", "d", "1"] {
        words.push(String::from_str(rt.alloc(), word)?)?;
    }
    // The data may have fewer bytes than the C file, which is read before them.
    for (length, line) in [
        (67_108_864, "too large: d\n"),
        (67_108_865, "too large: s\n"),
    ] {
        let mut files = LongFiles { length, left: None };
        let mut out = MemorySink::new(rt.alloc(), AMPLE, CallList::new(rt.alloc()))?;
        let mut err = MemorySink::new(rt.alloc(), AMPLE, CallList::new(rt.alloc()))?;
        let status = run(rt.alloc(), &words, &mut files, &mut out, &mut err);
        assert_eq!(rt; status, Status::TooLarge);
        assert_eq!(rt; err.written(), line.as_bytes());
        assert!(rt; out.written().is_empty());
    }
    Ok(())
}
