//! The emitted functions, run over bytes, against the reader of heads.

use ecd_cbuild::builder::{Builder, Valid};
use ecd_ceval::{Arg, Block, BlockList, Machine};
use ecd_fixed_heads::heads;
use ecd_head::read_head;
use ecd_list::OutOfMemory;
use std::alloc::Global;
use std::test::Fail;

fn program(alloc: Global) -> Result<Valid, OutOfMemory> {
    let mut builder = Builder::new(alloc);
    heads(alloc, &mut builder)?;
    Ok(builder.finish())
}

pub(crate) fn machine<'a>(
    alloc: Global,
    program: &'a Valid,
    bytes: &'a [u8],
) -> Result<Machine<'a>, OutOfMemory> {
    let mut blocks = BlockList::new(alloc);
    blocks.push(Block::Fixed(bytes))?;
    Machine::prepare(alloc, program, blocks)
}

/// What a function answers within so many steps.
pub(crate) fn ask<'a>(
    machine: &mut Machine<'a>,
    name: &str,
    args: &[Arg],
    limit: u64,
) -> Option<u64> {
    let number = machine.program().function(name)?;
    if !machine.fits(number, args) {
        return None;
    }
    machine.call(number, args, Some(limit)).ok()
}

pub(crate) fn window(offset: u64, length: u64, at: u64) -> [Arg; 3] {
    let place = Arg::Bytes { block: 0, offset };
    [place, Arg::Number(length), Arg::Number(at)]
}

fn end<'a>(machine: &mut Machine<'a>, offset: u64, length: u64, at: u64) -> Option<u64> {
    ask(machine, "head_end", &window(offset, length, at), 61)
}

fn argument<'a>(machine: &mut Machine<'a>, at: u64) -> Option<u64> {
    let place = Arg::Bytes {
        block: 0,
        offset: 0,
    };
    ask(machine, "head_argument", &[place, Arg::Number(at)], 22)
}

/// `head_within` at the front of so many bytes, with a major type and the least and greatest argument.
fn within<'a>(machine: &mut Machine<'a>, length: u64, kind: (u64, u64, u64)) -> Option<u64> {
    let [place, len, at] = window(0, length, 0);
    let (major, lo, hi) = kind;
    let args = [
        place,
        len,
        at,
        Arg::Number(major),
        Arg::Number(lo),
        Arg::Number(hi),
    ];
    ask(machine, "head_within", &args, 94)
}

/// Bytes that begin with a head, or with none.
const HEADS: [&[u8]; 48] = [
    &[],
    &[0x00],
    &[0x0a],
    &[0x17],
    &[0x18],
    &[0x18, 0x17],
    &[0x18, 0x18],
    &[0x18, 0xff],
    &[0x19],
    &[0x19, 0x01],
    &[0x19, 0x00, 0xff],
    &[0x19, 0x01, 0x00],
    &[0x19, 0x03, 0xe8],
    &[0x1a, 0x00, 0x0f, 0x42],
    &[0x1a, 0x00, 0x00, 0xff, 0xff],
    &[0x1a, 0x00, 0x01, 0x00, 0x00],
    &[0x1a, 0x00, 0x0f, 0x42, 0x40],
    &[0x1b, 0x00, 0x00, 0x00, 0x00, 0xff, 0xff, 0xff, 0xff],
    &[0x1b, 0x00, 0x00, 0x00, 0x01, 0x00, 0x00, 0x00, 0x00],
    &[0x1b, 0x00, 0x00, 0x00, 0xe8, 0xd4, 0xa5, 0x10, 0x00],
    &[0x1b, 0xff, 0xff, 0xff, 0xff, 0xff, 0xff, 0xff, 0xff],
    &[0x1b, 0xff, 0xff, 0xff, 0xff, 0xff, 0xff, 0xff],
    &[0x1c],
    &[0x1d, 0x00],
    &[0x1e, 0x00],
    &[0x1f],
    &[0x20],
    &[0x38, 0x63],
    &[0x39, 0x03, 0xe7],
    &[0x3b, 0xff, 0xff, 0xff, 0xff, 0xff, 0xff, 0xff, 0xff],
    &[0x44, 0x01, 0x02, 0x03, 0x04],
    &[0x58, 0x18],
    &[0x5f, 0xff],
    &[0x64, 0x49, 0x45, 0x54, 0x46],
    &[0x83, 0x01, 0x02, 0x03],
    &[0x98, 0x19],
    &[0x9f],
    &[0xa1, 0x01, 0x02],
    &[0xb8, 0x17],
    &[0xc2, 0x41, 0x01],
    &[0xd8, 0x20],
    &[0xd9, 0xd9, 0xf7],
    &[0xf4],
    &[0xf8, 0x1f],
    &[0xf8, 0x20],
    &[0xf9, 0x00, 0x00],
    &[0xfb, 0x3f, 0xf1, 0x99, 0x99, 0x99, 0x99, 0x99, 0x9a],
    &[0xff],
];

/// Whether the functions over heads find at the front of the window what the reader finds there.
fn head_agrees<'a>(machine: &mut Machine<'a>, bytes: &[u8]) -> bool {
    let length = bytes.len() as u64;
    let found = end(machine, 0, length, 0);
    match read_head(bytes, 0) {
        Ok((head, behind)) => {
            let major = head.major as u64;
            let arg = head.arg;
            found == Some(behind as u64)
                && argument(machine, 0) == Some(arg)
                && within(machine, length, (major, arg, arg)) == found
                && within(machine, length, (major, 0, u64::MAX)) == found
                && within(machine, length, (major ^ 1, arg, arg)) == Some(0)
                && within(machine, length, (major, arg / 2 + 1, arg / 2)) == Some(0)
        }
        Err(_) => found == Some(0) && within(machine, length, (0, 0, u64::MAX)) == Some(0),
    }
}

#[test]
fn heads_are_found_as_the_reader_finds_them(rt: HostRuntime) -> Result<(), Fail> {
    let alloc = rt.alloc();
    let valid = program(alloc)?;
    for (row, bytes) in HEADS.iter().enumerate() {
        let mut machine = machine(alloc, &valid, bytes)?;
        assert!(rt; head_agrees(&mut machine, bytes), "row {row}");
    }
    Ok(())
}

#[test]
fn a_window_ends_where_it_is_said_to_end(rt: HostRuntime) -> Result<(), Fail> {
    let alloc = rt.alloc();
    let valid = program(alloc)?;
    let bytes = [0x00, 0x19, 0x03, 0xe8, 0x18, 0x2a];
    let mut machine = machine(alloc, &valid, &bytes)?;
    assert_eq!(rt; end(&mut machine, 0, 6, 1), Some(4));
    assert_eq!(rt; end(&mut machine, 1, 5, 0), Some(3));
    assert_eq!(rt; end(&mut machine, 1, 3, 0), Some(3));
    assert_eq!(rt; end(&mut machine, 1, 2, 0), Some(0));
    assert_eq!(rt; end(&mut machine, 0, 6, 4), Some(6));
    assert_eq!(rt; end(&mut machine, 0, 5, 4), Some(0));
    assert_eq!(rt; end(&mut machine, 0, 6, 6), Some(0));
    assert_eq!(rt; end(&mut machine, 6, 0, 0), Some(0));
    assert_eq!(rt; argument(&mut machine, 1), Some(1000));
    assert_eq!(rt; argument(&mut machine, 4), Some(42));
    Ok(())
}

#[test]
fn numbers_and_first_bytes_are_read_alone(rt: HostRuntime) -> Result<(), Fail> {
    let alloc = rt.alloc();
    let valid = program(alloc)?;
    let bytes = [0x01, 0x23, 0x45, 0x67, 0x89, 0xab, 0xcd, 0xef, 0x00];
    let mut machine = machine(alloc, &valid, &bytes)?;
    let place = Arg::Bytes {
        block: 0,
        offset: 0,
    };
    let front = [place, Arg::Number(0)];
    assert_eq!(rt; ask(&mut machine, "load_be16", &front, 1), Some(0x0123));
    assert_eq!(rt;
        ask(&mut machine, "load_be32", &front, 5),
        Some(0x0123_4567)
    );
    assert_eq!(rt;
        ask(&mut machine, "load_be64", &front, 13),
        Some(0x0123_4567_89ab_cdef)
    );
    let rows: [(u64, u64, u64); 8] = [
        (0x00, 1, 0),
        (0x18, 2, 24),
        (0x39, 3, 0x100),
        (0x5a, 5, 0x1_0000),
        (0x9b, 9, 0x1_0000_0000),
        (0xf8, 2, 32),
        (0x1f, 0, 0x1_0000_0000),
        (0xf9, 0, 0x100),
    ];
    for (first, size, least) in rows.iter() {
        let args = [Arg::Number(*first)];
        assert_eq!(rt; ask(&mut machine, "head_size", &args, 14), Some(*size));
        assert_eq!(rt; ask(&mut machine, "head_least", &args, 12), Some(*least));
    }
    Ok(())
}
