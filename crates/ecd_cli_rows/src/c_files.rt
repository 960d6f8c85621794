//! C files, and their readers on data.

use crate::calls::{Answer, call, with_file};
use ecd_commands::Status;
use ecd_list::OutOfMemory;
use std::alloc::Global;
use std::test::Fail;

/// A C file with this depth of calls, whose reader `take` begins with these statements.
pub(crate) fn c_text(alloc: Global, depth: &str, first: &str) -> Result<String, OutOfMemory> {
    let mut text = String::from_str(alloc, "#include <stdint.h>\nenum { call_depth = ")?;
    text.push_str(depth)?;
    text.push_str(" };\nstruct found { uint64_t byte; const uint8_t *place; uint64_t spare; };\n")?;
    text.push_str("uint64_t take(const uint8_t *buf, uint64_t len, struct found *out) {\n")?;
    text.push_str(first)?;
    text.push_str("\nuint64_t x = (uint64_t)buf[n];\nout->byte = x;\nout->place = (buf + n);\n")?;
    text.push_str("return (n + 1ull);\n}\nuint64_t same(uint64_t number) { return number; }\n")?;
    Ok(text)
}

/// What the words answer over that C file and the data 05 07.
pub(crate) fn call_on(alloc: Global, words: &str, text: &str) -> Result<Answer, OutOfMemory> {
    let mut outside = with_file(text);
    outside.input = Some(b"\x05\x07");
    call(alloc, words, outside)
}

#[test]
fn readers_of_c_files_return_or_halt(rt: HostRuntime) -> Result<(), Fail> {
    let (stuck, spent) = (Status::Stuck, Status::Spent);
    let first = "result 1\nbyte = 5\nplace = data+0\nspare unset\n";
    let second = "result 2\nbyte = 7\nplace = data+1\nspare unset\n";
    for (words, begins, status, out, line) in [
        (
            "run s take d 9223372036854775807",
            "uint64_t n = 0ull;",
            Status::Done,
            first,
            "",
        ),
        (
            "run s take d 5",
            "uint64_t n = 1ull;",
            Status::Done,
            second,
            "",
        ),
        (
            "run s take d 4",
            "uint64_t n = 1ull;",
            spent,
            "",
            "spent 4\n",
        ),
        (
            "run s take d 2",
            "uint64_t n = (len + 0ull);",
            stuck,
            "",
            "stuck 1 item 1 statement 2\n",
        ),
        (
            "run s take d 1",
            "uint64_t n = (len + 0ull);",
            spent,
            "",
            "spent 1\n",
        ),
        (
            "run s take d 1000",
            "uint64_t n = (1ull << 64ull);",
            stuck,
            "",
            "stuck 4 item 1 statement 1\n",
        ),
        (
            "run s take d 1000",
            "uint64_t n = out->spare;",
            stuck,
            "",
            "stuck 5 item 1 statement 1\n",
        ),
        (
            "run s take d 1000",
            "const uint8_t *p = (buf + 3ull); uint64_t n = 0ull;",
            stuck,
            "",
            "stuck 3 item 1 statement 1\n",
        ),
        (
            "run s take d 1000",
            "uint64_t n = 18446744073709551615ull; for (uint64_t i = 0ull; i < n; i += 1ull) { }",
            spent,
            "",
            "spent 1000\n",
        ),
    ] {
        let text = c_text(rt.alloc(), "1", begins)?;
        let answer = call_on(rt.alloc(), words, text.as_str())?;
        assert_eq!(rt; answer.status, status, "{words} {begins}");
        assert_eq!(rt; answer.out.as_slice(), out.as_bytes());
        assert_eq!(rt; answer.err.as_slice(), line.as_bytes());
    }
    Ok(())
}

#[test]
fn c_files_and_functions_are_refused(rt: HostRuntime) -> Result<(), Fail> {
    let (c_file, none) = (Status::CFile, Status::NoFunction);
    let good = c_text(rt.alloc(), "1", "uint64_t n = 0ull;")?;
    let deep = c_text(rt.alloc(), "2", "uint64_t n = 0ull;")?;
    let unknown = c_text(rt.alloc(), "1", "uint64_t n = q;")?;
    let open = "#include <stdint.h>\nenum { call_depth = 1 };\nuint64_t f(uint64_t n) { }\n";
    for (words, text, status, line) in [
        (
            "run s take d 1000",
            deep.as_str(),
            c_file,
            "c file rule C7 item 0 statement 0\n",
        ),
        (
            "run s take d 1000",
            unknown.as_str(),
            c_file,
            "c file rule C1 item 1 statement 1\n",
        ),
        (
            "run s other d 1000",
            unknown.as_str(),
            c_file,
            "c file rule C1 item 1 statement 1\n",
        ),
        (
            "run s f d 1000",
            open,
            c_file,
            "c file rule C5 item 0 statement 0\n",
        ),
        ("run s take d 1000", "", c_file, "c file rule C0 byte 0\n"),
        (
            "run s other d 1",
            good.as_str(),
            none,
            "no function other\n",
        ),
        ("run s same d 1", good.as_str(), none, "no function same\n"),
        (
            "run s found d 1",
            good.as_str(),
            none,
            "no function found\n",
        ),
        ("run s take t 1", "", Status::ReadFault, "read fault\n"),
        ("run t take d 1", "", Status::ReadFault, "read fault\n"),
    ] {
        let answer = call_on(rt.alloc(), words, text)?;
        assert_eq!(rt; answer.status, status, "{words}");
        assert!(rt; answer.out.is_empty());
        assert_eq!(rt; answer.err.as_slice(), line.as_bytes());
    }
    Ok(())
}

/// A C file whose reader `read_0` sets the cell `v` to the byte at a place, and ends with this statement or none.
fn byte_reader(alloc: Global, place: &str, last: &str) -> Result<String, OutOfMemory> {
    let mut text = String::from_str(alloc, "#include <stdint.h>\nenum { call_depth = 1 };\n")?;
    text.push_str("struct s0 { uint64_t v; };\n")?;
    text.push_str("uint64_t read_0(const uint8_t *buf, uint64_t len, struct s0 *out) {\n")?;
    text.push_str("uint64_t n = ")?;
    text.push_str(place)?;
    text.push_str(";\nuint64_t x = (uint64_t)buf[n];\nout->v = x;\n")?;
    text.push_str(last)?;
    text.push_str("}\n")?;
    Ok(text)
}

#[test]
fn a_byte_is_read_or_lies_behind_the_data(rt: HostRuntime) -> Result<(), Fail> {
    let (stuck, c_file) = (Status::Stuck, Status::CFile);
    let end = "return 1ull;\n";
    for (place, last, status, out, line) in [
        ("0ull", end, Status::Done, "result 1\nv = 5\n", ""),
        (
            "(len + 0ull)",
            end,
            stuck,
            "",
            "stuck 1 item 1 statement 2\n",
        ),
        (
            "0ull",
            "",
            c_file,
            "",
            "c file rule C5 item 1 statement 0\n",
        ),
    ] {
        let text = byte_reader(rt.alloc(), place, last)?;
        let answer = call_on(rt.alloc(), "run s read_0 d 1000", text.as_str())?;
        assert_eq!(rt; answer.status, status, "{place}");
        assert_eq!(rt; answer.out.as_slice(), out.as_bytes());
        assert_eq!(rt; answer.err.as_slice(), line.as_bytes());
    }
    Ok(())
}
