//! Words, and schemas that are taken or refused.

use crate::calls::{call, is_answered, with_bytes, with_file};
use ecd_commands::Status;
use ecd_compile::compile;
use ecd_keyorder::Order;
use std::test::Fail;

#[test]
fn words_are_in_the_table_or_the_usage_is_told(rt: HostRuntime) -> Result<(), Fail> {
    let not_built = Status::NotBuilt;
    let usage = "usage: check, compile, read, write, copy, run, sample\n";
    for words in [
        "compile s x",
        "check s x 33",
        "compile s x 00",
        "compile s x +1",
        "check s x 1,shortest",
        "check s x 1,",
        "check s x ,length-first",
        "check s x 1,length-first,",
        "check s x 1,length-firs",
        "check s x 1,Length-first",
        "check s x 01,length-first",
        "check s x 33,length-first",
        "check s x 1,length-first,length-first",
        "compile s x 0 0",
        "Check s x 0",
        "read s x 0",
        "write s x 0 v 16777217",
        "copy s x 0 s -1",
        "run s read_0 s 0",
        "run s read_0 s 9223372036854775808",
        "sample 0",
        "sample 20001",
        "",
    ] {
        let told = is_answered(rt.alloc(), words, "x = 5", Status::Usage, usage)?;
        assert!(rt; told, "{words}");
    }
    for words in [
        "write s x 32 s 16777216",
        "write s x 0,length-first s 0",
        "copy s x 0 s 0",
        "copy s x 32,length-first s 0",
        "sample 20000",
    ] {
        let told = is_answered(rt.alloc(), words, "x = 5", not_built, "not built\n")?;
        assert!(rt; told, "{words}");
    }
    Ok(())
}

#[test]
fn schemas_are_taken_or_refused_with_rule_and_place(rt: HostRuntime) -> Result<(), Fail> {
    let (done, schema) = (Status::Done, Status::Schema);
    let not_built = Status::NotBuilt;
    for (words, contents, status, line) in [
        ("compile s x 0", "x = 5", done, ""),
        ("check s x 32", "x = 5\n", done, ""),
        ("check s x 0", "x = 0x05 ; five", done, ""),
        ("check s x 1,length-first", "x = 5", done, ""),
        ("compile s x 32,length-first", "x = 5", done, ""),
        ("compile s x 0", "x = 24", not_built, "not built\n"),
        ("check s y 0", "x = 5", not_built, "not built\n"),
        ("compile t x 0", "x = 5", Status::ReadFault, "read fault\n"),
        ("check t x 0", "x = 5", Status::ReadFault, "read fault\n"),
        (
            "check s a 0",
            "a = %",
            schema,
            "schema 1:5 byte 4 rule X1\n",
        ),
        (
            "check s a 0",
            "a = \"x",
            schema,
            "schema 1:5 byte 4 rule X2\n",
        ),
        (
            "check s a 0",
            "a = \"\\x\"",
            schema,
            "schema 1:6 byte 5 rule X3\n",
        ),
        (
            "check s a 0",
            "a = 012",
            schema,
            "schema 1:5 byte 4 rule X4\n",
        ),
        (
            "check s a 0",
            "a = h'1'",
            schema,
            "schema 1:8 byte 7 rule X5\n",
        ),
        (
            "check s a 0",
            "a = b64'AA'",
            schema,
            "schema 1:5 byte 4 rule X6\n",
        ),
        (
            "check s a 0",
            "a = [int",
            schema,
            "schema 1:9 byte 8 rule P1\n",
        ),
        ("check s a 0", "", schema, "schema 1:1 byte 0 rule P1\n"),
        (
            "compile s x 0",
            "x = 5\ny = [",
            schema,
            "schema 2:6 byte 11 rule P1\n",
        ),
    ] {
        let told = is_answered(rt.alloc(), words, contents, status, line)?;
        assert!(rt; told, "{contents:?}");
    }
    let broken = call(rt.alloc(), "check s a 0", with_bytes(b"a = \"\xff"))?;
    assert_eq!(rt;
        broken.err.as_slice(),
        b"schema 1:6 byte 5 rule T0\n".as_slice()
    );
    Ok(())
}

#[test]
fn broken_rules_of_names_are_told_with_rule_and_place(rt: HostRuntime) -> Result<(), Fail> {
    for (contents, line) in [
        ("a = 1 a = 2", "schema 1:7 byte 6 rule N1\n"),
        ("a = 1\na = 2", "schema 2:1 byte 6 rule N1\n"),
        ("a = b", "schema 1:5 byte 4 rule N2\n"),
        ("a = int / uint / b", "schema 1:18 byte 17 rule N2\n"),
        ("a = [* a]", "schema 1:8 byte 7 rule N3\n"),
        ("a = b<int, int> b<t> = [t]", "schema 1:5 byte 4 rule N4\n"),
        ("a = g / int g = (int, int)", "schema 1:5 byte 4 rule N5\n"),
    ] {
        for words in ["check s a 0", "compile s a 0"] {
            let told = is_answered(rt.alloc(), words, contents, Status::Schema, line)?;
            assert!(rt; told, "{words} {contents:?}");
        }
    }
    Ok(())
}

#[test]
fn the_text_of_the_compiler_is_written(rt: HostRuntime) -> Result<(), Fail> {
    let answer = call(rt.alloc(), "compile s x 0", with_file("x = 5"))?;
    let compiled = compile(rt.alloc(), b"x = 5", "x", 0, Order::Bytewise)?;
    assert_eq!(rt; answer.out.as_slice(), compiled.text.as_slice());
    let answer = call(rt.alloc(), "check s x 0", with_file("x = 5"))?;
    assert_eq!(rt; answer.out.as_slice(), b"ok\n".as_slice());
    Ok(())
}

#[test]
fn data_is_read_or_refused(rt: HostRuntime) -> Result<(), Fail> {
    let none = "refused: no encoding\n";
    let broken = "schema 1:5 byte 4 rule X1\n";
    for (contents, input, status, out, line) in [
        ("x = 5", b"\x05".as_slice(), Status::Done, "1 _\n", ""),
        ("x = 5", b"\x05\x06", Status::Done, "1 _\n", ""),
        ("x = 5", b"\x06", Status::Refused, "", none),
        ("x = 5", b"\x18\x05", Status::Refused, "", none),
        ("x = 5", b"", Status::Refused, "", none),
        ("x = %", b"\x05", Status::Schema, "", broken),
        ("x = 24", b"\x05", Status::NotBuilt, "", "not built\n"),
    ] {
        let mut outside = with_file(contents);
        outside.input = Some(input);
        let answer = call(rt.alloc(), "read s x 0 d", outside)?;
        assert_eq!(rt; answer.status, status, "{contents} {input:?}");
        assert_eq!(rt; answer.out.as_slice(), out.as_bytes());
        assert_eq!(rt; answer.err.as_slice(), line.as_bytes());
    }
    let missing = call(rt.alloc(), "read s x 0 d", with_file("x = %"))?;
    assert_eq!(rt; missing.status, Status::ReadFault);
    Ok(())
}
