//! Small files, run.

use crate::texts::{file, joined, read};
use ecd_ceval::{Arg, Block, BlockList, Halt, Machine};
use ecd_list::ByteList;
use std::alloc::Global;
use std::test::Fail;

/// An answer, and the two bytes of an output behind it.
type Ran = (Result<u64, Halt>, u8, u8);

const HEAD: &str = "uint64_t f(const uint8_t *buf, uint64_t len, uint8_t *dst) { ";

/// What a function of this body answers on the byte 05 with a limit, and the output behind it, of two bytes ff.
fn ran(alloc: Global, body: &str, limit: Option<u64>) -> Result<Ran, Fail> {
    let text = file(alloc, "1", &[HEAD, body, " }"])?;
    let valid = read(alloc, text.as_str())?;
    let mut blocks = BlockList::new(alloc);
    blocks.push(Block::Fixed(b"\x05".as_slice()))?;
    blocks.push(Block::Output(ByteList::from_slice(alloc, b"\xff\xff")?))?;
    let mut machine = Machine::prepare(alloc, &valid, blocks)?;
    let buffer = Arg::Bytes {
        block: 0,
        offset: 0,
    };
    let output = Arg::Bytes {
        block: 1,
        offset: 0,
    };
    let args = [buffer, Arg::Number(1), output];
    if !machine.fits(0, &args) {
        return Err("the arguments do not fit".into());
    }
    let answer = machine.call(0, &args, limit);
    let bytes = machine.output(1);
    let first = bytes.get(0).copied().unwrap_or(0);
    let second = bytes.get(1).copied().unwrap_or(0);
    Ok((answer, first, second))
}

fn spent(steps: u64) -> Result<u64, Halt> {
    Err(Halt::Spent { steps })
}

fn stuck(reason: u8, statement: u32) -> Result<u64, Halt> {
    Err(Halt::Stuck {
        reason,
        item: 0,
        statement,
    })
}

#[test]
fn a_byte_is_stored_in_the_third_step(rt: HostRuntime) -> Result<(), Fail> {
    let body =
        "uint64_t n = 0ull; uint64_t x = (uint64_t)buf[n]; dst[0ull] = (uint8_t)x; return 1ull;";
    for (limit, want, byte) in [
        (None, Ok(1), 5),
        (Some(100), Ok(1), 5),
        (Some(4), Ok(1), 5),
        (Some(3), spent(3), 5),
        (Some(2), spent(2), 0xff),
    ] {
        let (answer, first, second) = ran(rt.alloc(), body, limit)?;
        assert_eq!(rt; answer, want);
        assert!(rt; first == byte && second == 0xff);
    }
    Ok(())
}

#[test]
fn a_function_is_stuck_where_it_has_no_meaning(rt: HostRuntime) -> Result<(), Fail> {
    for (body, want) in [
        (
            "uint64_t n = (len + 0ull); uint64_t x = (uint64_t)buf[n]; return x;",
            stuck(1, 2),
        ),
        ("dst[2ull] = (uint8_t)len; return 1ull;", stuck(2, 1)),
        (
            "dst[18446744073709551615ull] = (uint8_t)len; return 1ull;",
            stuck(2, 1),
        ),
        ("const uint8_t *p = (buf + 1ull); return 1ull;", Ok(1)),
        ("const uint8_t *p = (buf + 2ull); return 1ull;", stuck(3, 1)),
        ("uint64_t n = (1ull << 64ull); return n;", stuck(4, 1)),
        (
            "uint64_t n = (1ull << 63ull); return n;",
            Ok(0x8000_0000_0000_0000),
        ),
    ] {
        let (answer, _, _) = ran(rt.alloc(), body, None)?;
        assert_eq!(rt; answer, want, "{body}");
    }
    Ok(())
}

#[test]
fn the_limit_stands_before_what_is_stuck(rt: HostRuntime) -> Result<(), Fail> {
    let body = "uint64_t n = 1ull; uint64_t x = (uint64_t)buf[n]; return x;";
    let (answer, _, _) = ran(rt.alloc(), body, Some(1))?;
    assert_eq!(rt; answer, spent(1));
    let (answer, _, _) = ran(rt.alloc(), body, Some(2))?;
    assert_eq!(rt; answer, stuck(1, 2));
    Ok(())
}

#[test]
fn each_turn_of_a_loop_is_a_step_and_its_test_is_none(rt: HostRuntime) -> Result<(), Fail> {
    let three = "uint64_t m = 3ull; for (uint64_t i = 0ull; i < m; i += 1ull) { } return 1ull;";
    let most =
        "uint64_t m = 18446744073709551615ull; for (uint64_t i = 0ull; i < m; i += 1ull) { } return 1ull;";
    for (body, limit, want) in [
        (three, 6, Ok(1)),
        (three, 5, spent(5)),
        (most, 1000, spent(1000)),
    ] {
        let (answer, _, _) = ran(rt.alloc(), body, Some(limit))?;
        assert_eq!(rt; answer, want);
    }
    Ok(())
}

#[test]
fn the_right_side_counts_only_where_the_left_is_open(rt: HostRuntime) -> Result<(), Fail> {
    for (test, reads) in [
        ("((len == 1ull) && ((uint64_t)buf[len] == 0ull))", true),
        ("((len == 0ull) && ((uint64_t)buf[len] == 0ull))", false),
        ("((len == 0ull) || ((uint64_t)buf[len] == 0ull))", true),
        ("((len == 1ull) || ((uint64_t)buf[len] == 0ull))", false),
    ] {
        let body = joined(rt.alloc(), &["if ", test, " { } else { } return 1ull;"])?;
        let (answer, _, _) = ran(rt.alloc(), body.as_str(), None)?;
        let want = if reads { stuck(1, 1) } else { Ok(1) };
        assert_eq!(rt; answer, want, "{test}");
    }
    Ok(())
}

#[test]
fn a_store_keeps_the_low_bits_of_a_number(rt: HostRuntime) -> Result<(), Fail> {
    let body = "dst[1ull] = (uint8_t)4660ull; return 1ull;";
    let (answer, first, second) = ran(rt.alloc(), body, None)?;
    assert_eq!(rt; answer, Ok(1));
    assert!(rt; first == 0xff && second == 0x34);
    Ok(())
}

/// Functions that each add one to what the function before answers, and call it with the same number.
fn chain(alloc: Global, length: u64) -> Result<String, Fail> {
    let depth = format!(in alloc; "{length}")?;
    let mut text = file(
        alloc,
        depth.as_str(),
        &["uint64_t f0(uint64_t x) { return (x + 1ull); }\n"],
    )?;
    for number in 1..length {
        let before = number - 1;
        let function = format!(in alloc;
            "uint64_t f{number}(uint64_t x) {{ uint64_t n = f{before}(x); n = (n + 1ull); return n; }}\n"
        )?;
        text.push_str(function.as_str())?;
    }
    Ok(text)
}

/// What a function answers, where it takes the argument.
fn answer_of(
    machine: &mut Machine,
    function: u32,
    limit: Option<u64>,
) -> Option<Result<u64, Halt>> {
    let args = [Arg::Number(7)];
    if machine.fits(function, &args) {
        Some(machine.call(function, &args, limit))
    } else {
        None
    }
}

#[test]
fn calls_add_up_and_deep_ones_want_memory(rt: HostRuntime) -> Result<(), Fail> {
    let alloc = rt.alloc();
    let text = chain(alloc, 5_000)?;
    let valid = read(alloc, text.as_str())?;
    let mut machine = Machine::prepare(alloc, &valid, BlockList::new(alloc))?;
    for (function, limit, want) in [
        (0, None, Ok(8)),
        (2, Some(7), Ok(10)),
        (2, Some(6), spent(6)),
        (200, None, Ok(208)),
        (4_999, None, Err(Halt::OutOfMemory { steps: 250 })),
    ] {
        let answer = answer_of(&mut machine, function, limit);
        assert_eq!(rt; answer, Some(want), "function {function}");
    }
    Ok(())
}
