//! Bytes compared, judged and written by the emitted functions.

use crate::head_rows::{ask, machine};
use ecd_cbuild::builder::{Builder, Valid};
use ecd_ceval::{Arg, Block, BlockList, Machine};
use ecd_fixed_bytes::{comparison, copier, head_writer, utf8_check};
use ecd_keyorder::{Order, compare};
use ecd_list::{ByteList, OutOfMemory};
use std::alloc::Global;
use std::cmp::Ordering;
use std::test::Fail;

/// `compare_bytes` of the bytes before a place and those from it on.
fn compared<'a>(machine: &mut Machine<'a>, middle: u64, length: u64) -> Option<u64> {
    let left = Arg::Bytes {
        block: 0,
        offset: 0,
    };
    let right = Arg::Bytes {
        block: 0,
        offset: middle,
    };
    let right_len = Arg::Number(length.saturating_sub(middle));
    let args = [left, Arg::Number(middle), right, right_len];
    let shorter = middle.min(length.saturating_sub(middle));
    let limit = shorter.saturating_mul(7).saturating_add(7);
    ask(machine, "compare_bytes", &args, limit)
}

/// The program that compares in an order.
fn comparer(alloc: Global, order: Order) -> Result<Valid, OutOfMemory> {
    let mut builder = Builder::new(alloc);
    comparison(alloc, order, &mut builder)?;
    Ok(builder.finish())
}

#[test]
fn bytes_are_compared_from_the_left(rt: HostRuntime) -> Result<(), Fail> {
    let rows: [(&[u8], u64, u64); 11] = [
        (&[], 0, 1),
        (&[7], 0, 0),
        (&[7], 1, 2),
        (&[7, 7], 1, 1),
        (&[6, 7], 1, 0),
        (&[8, 7], 1, 2),
        (&[1, 2, 1], 2, 2),
        (&[1, 1, 2], 1, 0),
        (&[1, 2, 3, 1, 2, 4], 3, 0),
        (&[2, 0, 0, 1, 9, 9], 3, 2),
        (&[255, 0, 255, 0], 2, 1),
    ];
    let alloc = rt.alloc();
    let valid = comparer(alloc, Order::Bytewise)?;
    for (bytes, middle, order) in rows.iter() {
        let mut machine = machine(alloc, &valid, bytes)?;
        let length = bytes.len() as u64;
        assert_eq!(rt; compared(&mut machine, *middle, length), Some(*order));
    }
    Ok(())
}

#[test]
fn shorter_bytes_are_less_in_the_length_first_order(rt: HostRuntime) -> Result<(), Fail> {
    let rows: [(&[u8], u64, u64); 11] = [
        (&[], 0, 1),
        (&[0], 0, 0),
        (&[0], 1, 2),
        (&[7, 7], 1, 1),
        (&[0x20, 0x18, 0x64], 1, 0),
        (&[0x18, 0x64, 0x20], 2, 2),
        (&[1, 2, 1, 3], 2, 0),
        (&[1, 3, 1, 2], 2, 2),
        (&[1, 2, 3, 1, 2, 3], 3, 1),
        (&[9, 9, 0, 0, 0], 2, 0),
        (&[0, 0, 0, 9, 9], 3, 2),
    ];
    let alloc = rt.alloc();
    let valid = comparer(alloc, Order::LengthFirst)?;
    for (bytes, middle, order) in rows.iter() {
        let mut machine = machine(alloc, &valid, bytes)?;
        let length = bytes.len() as u64;
        assert_eq!(rt; compared(&mut machine, *middle, length), Some(*order));
    }
    Ok(())
}

/// What `compare_bytes` answers where the left bytes stand so to the right ones.
fn order_number(order: Ordering) -> u64 {
    match order {
        Ordering::Less => 0,
        Ordering::Equal => 1,
        Ordering::Greater => 2,
    }
}

#[test]
fn random_bytes_are_compared_as_keys_are(rt: HostRuntime) -> Result<(), Fail> {
    let alloc = rt.alloc();
    let mut random: u64 = 1;
    for order in [Order::Bytewise, Order::LengthFirst] {
        let valid = comparer(alloc, order)?;
        for _ in 0..100 {
            random = random
                .wrapping_mul(6_364_136_223_846_793_005)
                .wrapping_add(1);
            let middle = (random >> 60).min(8);
            let bytes = ((random >> 4) & 0x0101_0101_0101_0101).to_be_bytes();
            let (left, right) = bytes.split_at(middle as usize);
            let wanted = order_number(compare(order, left, right));
            let mut machine = machine(alloc, &valid, &bytes)?;
            assert_eq!(rt; compared(&mut machine, middle, 8), Some(wanted));
        }
    }
    Ok(())
}

/// Bytes that are UTF-8, or not.
const TEXTS: [&[u8]; 24] = [
    b"",
    b"IETF",
    &[0x7f],
    &[0x80],
    &[0xbf],
    &[0xc1, 0xbf],
    &[0xc2, 0x80],
    &[0xc3, 0xbc],
    &[0xc3],
    &[0xc3, 0x28],
    &[0xe0, 0x9f, 0xbf],
    &[0xe0, 0xa0, 0x80],
    &[0xe6, 0xb0, 0xb4],
    &[0xe6, 0xb0],
    &[0xed, 0x9f, 0xbf],
    &[0xed, 0xa0, 0x80],
    &[0xef, 0xbf, 0xbf, 0x41],
    &[0xf0, 0x8f, 0xbf, 0xbf],
    &[0xf0, 0x90, 0x85, 0x91],
    &[0xf0, 0x90, 0x85],
    &[0xf4, 0x8f, 0xbf, 0xbf],
    &[0xf4, 0x90, 0x80, 0x80],
    &[0xf5, 0x80, 0x80, 0x80],
    &[0x41, 0xff],
];

/// `utf8_valid` of the first bytes.
fn judged<'a>(machine: &mut Machine<'a>, length: u64) -> Option<u64> {
    let place = Arg::Bytes {
        block: 0,
        offset: 0,
    };
    let limit = length.saturating_mul(27).saturating_add(27);
    ask(machine, "utf8_valid", &[place, Arg::Number(length)], limit)
}

#[test]
fn text_is_judged_as_std_judges_it(rt: HostRuntime) -> Result<(), Fail> {
    let alloc = rt.alloc();
    let mut builder = Builder::new(alloc);
    utf8_check(alloc, &mut builder)?;
    let valid = builder.finish();
    for bytes in TEXTS.iter() {
        let mut machine = machine(alloc, &valid, bytes)?;
        let is_text = std::str::from_utf8(bytes).is_ok();
        let answer = judged(&mut machine, bytes.len() as u64);
        assert_eq!(rt; answer, Some(is_text as u64));
    }
    Ok(())
}

/// A program of the functions that write, and the comparison.
#[tactic(auto, unfolding(ecd_fixed_bytes::specs::Compare::compare_bytes, ecd_fixed_bytes::specs::HeadWriter::head_length, ecd_fixed_bytes::specs::HeadWriter::store_be16, ecd_fixed_bytes::specs::HeadWriter::store_be32, ecd_fixed_bytes::specs::HeadWriter::store_be64, ecd_fixed_bytes::specs::HeadWriter::put_head))]
fn writers(alloc: Global) -> Result<Valid, OutOfMemory> {
    let mut builder = Builder::new(alloc);
    comparison(alloc, Order::Bytewise, &mut builder)?;
    head_writer(alloc, &mut builder)?;
    copier(alloc, &mut builder)?;
    Ok(builder.finish())
}

/// Block 0 is a source, block 1 an output of twelve bytes, and block 2 what the output is to be.
fn writing<'a>(
    alloc: Global,
    program: &'a Valid,
    source: &'a [u8],
    wanted: &'a [u8],
) -> Result<Machine<'a>, OutOfMemory> {
    let old = b"\xff\xff\xff\xff\xff\xff\xff\xff\xff\xff\xff\xff";
    let mut blocks = BlockList::new(alloc);
    blocks.push(Block::Fixed(source))?;
    blocks.push(Block::Output(ByteList::from_slice(alloc, old)?))?;
    blocks.push(Block::Fixed(wanted))?;
    Machine::prepare(alloc, program, blocks)
}

/// `compare_bytes` of the whole output and what it is to be.
fn output_order<'a>(machine: &mut Machine<'a>) -> Option<u64> {
    let output = Arg::Bytes {
        block: 1,
        offset: 0,
    };
    let wanted = Arg::Bytes {
        block: 2,
        offset: 0,
    };
    let args = [output, Arg::Number(12), wanted, Arg::Number(12)];
    ask(machine, "compare_bytes", &args, 91)
}

/// A major type, an argument, the length of their head, and the output that has it behind its third byte.
const WRITTEN: [(u64, u64, u64, &[u8]); 10] = [
    (0, 0, 1, b"\xff\xff\xff\x00\xff\xff\xff\xff\xff\xff\xff\xff"),
    (
        1,
        23,
        1,
        b"\xff\xff\xff\x37\xff\xff\xff\xff\xff\xff\xff\xff",
    ),
    (
        2,
        24,
        2,
        b"\xff\xff\xff\x58\x18\xff\xff\xff\xff\xff\xff\xff",
    ),
    (
        3,
        255,
        2,
        b"\xff\xff\xff\x78\xff\xff\xff\xff\xff\xff\xff\xff",
    ),
    (
        4,
        256,
        3,
        b"\xff\xff\xff\x99\x01\x00\xff\xff\xff\xff\xff\xff",
    ),
    (
        5,
        65535,
        3,
        b"\xff\xff\xff\xb9\xff\xff\xff\xff\xff\xff\xff\xff",
    ),
    (
        6,
        65536,
        5,
        b"\xff\xff\xff\xda\x00\x01\x00\x00\xff\xff\xff\xff",
    ),
    (
        0,
        1000000,
        5,
        b"\xff\xff\xff\x1a\x00\x0f\x42\x40\xff\xff\xff\xff",
    ),
    (
        0,
        1000000000000,
        9,
        b"\xff\xff\xff\x1b\x00\x00\x00\xe8\xd4\xa5\x10\x00",
    ),
    (
        7,
        32,
        2,
        b"\xff\xff\xff\xf8\x20\xff\xff\xff\xff\xff\xff\xff",
    ),
];

/// `put_head` of a major type and an argument, behind the third byte of the output.
fn put<'a>(machine: &mut Machine<'a>, major: u64, argument: u64) -> Option<u64> {
    let out = Arg::Bytes {
        block: 1,
        offset: 1,
    };
    let args = [
        out,
        Arg::Number(2),
        Arg::Number(major),
        Arg::Number(argument),
    ];
    ask(machine, "put_head", &args, 29)
}

#[test]
fn heads_are_written_in_their_shortest_form(rt: HostRuntime) -> Result<(), Fail> {
    let alloc = rt.alloc();
    let valid = writers(alloc)?;
    for (major, argument, length, wanted) in WRITTEN.iter() {
        let mut machine = writing(alloc, &valid, &[], wanted)?;
        let args = [Arg::Number(*argument)];
        assert_eq!(rt; ask(&mut machine, "head_length", &args, 9), Some(*length));
        let end = length.checked_add(2);
        assert_eq!(rt; put(&mut machine, *major, *argument), end);
        assert_eq!(rt; output_order(&mut machine), Some(1));
    }
    Ok(())
}

#[test]
fn bytes_are_copied_and_the_rest_stays(rt: HostRuntime) -> Result<(), Fail> {
    let rows: [(u64, &[u8]); 3] = [
        (0, b"\xff\xff\xff\xff\xff\xff\xff\xff\xff\xff\xff\xff"),
        (1, b"\xff\xff\xff\x02\xff\xff\xff\xff\xff\xff\xff\xff"),
        (3, b"\xff\xff\xff\x02\x03\x04\xff\xff\xff\xff\xff\xff"),
    ];
    let alloc = rt.alloc();
    let valid = writers(alloc)?;
    for (count, wanted) in rows.iter() {
        let mut machine = writing(alloc, &valid, &[1, 2, 3, 4], wanted)?;
        let out = Arg::Bytes {
            block: 1,
            offset: 1,
        };
        let from = Arg::Bytes {
            block: 0,
            offset: 1,
        };
        let args = [out, Arg::Number(2), from, Arg::Number(*count)];
        let end = count.checked_add(2);
        assert_eq!(rt; ask(&mut machine, "copy_bytes", &args, 8), end);
        assert_eq!(rt; output_order(&mut machine), Some(1));
    }
    Ok(())
}
