//! The functions with a depth, run over bytes, against the reader of items.

ghost use Rattle.std.specs.Prelude.{◌≤◌};

use ecd_cbuild::builder::{Builder, Valid};
use ecd_ceval::{Arg, Block, BlockList, Machine};
use ecd_item::{ItemFault, read_item};
use ecd_keyorder::Order;
use ecd_list::OutOfMemory;
use ecd_rt::runtime;
use std::alloc::Global;
use std::test::Fail;

/// Bytes that begin with a valid item, or with none.
const ROWS: [&[u8]; 100] = [
    b"",
    b"\x00",
    b"\x17\x00",
    b"\x18",
    b"\x18\x17",
    b"\x18\x18",
    b"\x18\xff\x00",
    b"\x19\x03\xe8",
    b"\x19\x00\xff",
    b"\x1a\x00\x00\xff\xff",
    b"\x1b\x00\x00\x00\x01\x00\x00\x00\x00",
    b"\x1b\xff\xff\xff\xff\xff\xff\xff\xff",
    b"\x1c",
    b"\x1f",
    b"\x20",
    b"\x38\x17",
    b"\x3b\xff\xff\xff\xff\xff\xff\xff\xff",
    b"\x40",
    b"\x41",
    b"\x44\x01\x02\x03",
    b"\x44\x01\x02\x03\x04\x05",
    b"\x5b\xff\xff\xff\xff\xff\xff\xff\xff\x00",
    b"\x5f\x40\xff",
    b"\x60",
    b"\x61\x80",
    b"\x62\xc3\xa9",
    b"\x62\xc3\x28",
    b"\x62\xc0\x80",
    b"\x63\xe2\x82\xac",
    b"\x63\xed\xa0\x80",
    b"\x64\xf0\x9f\x8d\x84",
    b"\x64\xf4\x90\x80\x80",
    b"\x64\x49\x45\x54",
    b"\x64\x49\x45\x54\x46\x00",
    b"\x7b\xff\xff\xff\xff\xff\xff\xff\xff\x00",
    b"\x80",
    b"\x80\x80",
    b"\x81",
    b"\x81\x00",
    b"\x81\xff",
    b"\x81\x61\xff",
    b"\x81\x81\x80",
    b"\x82\x00",
    b"\x82\x00\x01\x02",
    b"\x82\x80\x80",
    b"\x82\x80\xa0",
    b"\x82\x61\x61\x61\xfe",
    b"\x83\x01\x82\x02\x03\x82\x04\x05",
    b"\x83\x01\x82\x02\x03\x82\x04",
    b"\x98\x18",
    b"\x98\x17\x00",
    b"\x9b\xff\xff\xff\xff\xff\xff\xff\xff",
    b"\x9f\xff",
    b"\xa0",
    b"\xa1\x01",
    b"\xa1\x01\x02",
    b"\xa1\x80\x80",
    b"\xa1\x80\xa0",
    b"\xa1\x81\x80\xa1\x00\x01",
    b"\xa1\x61\xff\x00",
    b"\xa1\x00\x61\xff",
    b"\xa2\x01\x02",
    b"\xa2\x01\x02\x03\x04\x05",
    b"\xa2\x02\x00\x01\x00",
    b"\xa2\x01\x00\x01\x00",
    b"\xa2\x01\x00\x18\x64\x00",
    b"\xa2\x18\x64\x00\x01\x00",
    b"\xa2\x20\x00\x18\x64\x00",
    b"\xa2\x61\x61\x01\x61\x62\x82\x02\x03",
    b"\xa2\x61\x62\x01\x61\x61\x02",
    b"\xa2\x61\x61\x00\x62\x61\x61\x00",
    b"\xa2\x62\x61\x61\x00\x61\x62\x00",
    b"\xa2\x80\x00\x81\x00\x00",
    b"\xa2\xa0\x00\xa0\x01",
    b"\xa3\x00\x01\x20\x02\x40\x03",
    b"\xa3\x00\x01\x40\x02\x20\x03",
    b"\xa1\xa2\x01\x00\x01\x00\x00",
    b"\x81\xa2\x02\x00\x01\x00",
    b"\xbb\x7f\xff\xff\xff\xff\xff\xff\xff",
    b"\xbb\x80\x00\x00\x00\x00\x00\x00\x00",
    b"\xbb\xff\xff\xff\xff\xff\xff\xff\xff\x00",
    b"\xbf\xff",
    b"\xc0",
    b"\xc1\x00",
    b"\xc1\x1a\x51\x4b\x67\xb0",
    b"\xc1\xc1\x00",
    b"\xc1\xc1\x81\xc1\x00",
    b"\xd8\x17\x00",
    b"\xd8\x18\x45\x64\x49\x45\x54\x46",
    b"\xd9\xd9\xf7\x82\x00\x00",
    b"\xdb\xff\xff\xff\xff\xff\xff\xff\xff\xf6",
    b"\xe0",
    b"\xf3",
    b"\xf4",
    b"\xf8\x18",
    b"\xf8\x20",
    b"\xf8\xff\x00",
    b"\xf9\x00\x00",
    b"\x82\xf9\x00\x00",
    b"\xff",
];

fn program(alloc: Global, depth: u8, order: Order) -> Result<Valid, OutOfMemory>
    requires { depth ≤ 32 }
{
    let mut builder = Builder::new(alloc);
    runtime(alloc, depth, order, &mut builder)?;
    Ok(builder.finish())
}

/// What a function answers at a place of some bytes within so many steps.
fn answer(
    alloc: Global,
    valid: &Valid,
    name: &str,
    bytes: &[u8],
    at: u64,
    steps: u64,
) -> Result<Option<u64>, OutOfMemory> {
    let mut blocks = BlockList::new(alloc);
    blocks.push(Block::Fixed(bytes))?;
    let mut machine = Machine::prepare(alloc, valid, blocks)?;
    let Some(function) = valid.function(name) else {
        return Ok(None);
    };
    let start = Arg::Bytes {
        block: 0,
        offset: 0,
    };
    let args = [start, Arg::Number(bytes.len() as u64), Arg::Number(at)];
    if !machine.fits(function, &args) {
        return Ok(None);
    }
    Ok(machine.call(function, &args, Some(steps)).ok())
}

/// What `any_` of a depth answers at a place of some bytes, where it may take the steps of so many bytes.
fn any_end(
    alloc: Global,
    valid: &Valid,
    depth: u8,
    bytes: &[u8],
    at: u64,
    paid_by: u64,
) -> Result<Option<u64>, OutOfMemory> {
    let name = format!(in alloc; "any_{depth}")?;
    let each = 162 * (depth as u64 + 1);
    let steps = paid_by.saturating_mul(each);
    answer(alloc, valid, name.as_str(), bytes, at, steps)
}

/// What `item_end` answers at the front of some bytes, where it may look at so many of them.
fn item_end(
    alloc: Global,
    valid: &Valid,
    bytes: &[u8],
    looked_at: u64,
) -> Result<Option<u64>, OutOfMemory> {
    let steps = looked_at.saturating_mul(144).saturating_add(144);
    answer(alloc, valid, "item_end", bytes, 0, steps)
}

/// Whether `any_` of a depth and the reader of items find the same end at the front of some bytes, or none.
fn agrees(
    alloc: Global,
    valid: &Valid,
    depth: u8,
    order: Order,
    bytes: &[u8],
) -> Result<bool, OutOfMemory>
    requires { depth ≤ 32 }
{
    match read_item(alloc, order, bytes, 0, depth) {
        Ok((_, behind)) => {
            let behind = behind as u64;
            let found = any_end(alloc, valid, depth, bytes, 0, behind)?;
            Ok(found == Some(behind))
        }
        Err(ItemFault::At { .. }) => {
            let all = (bytes.len() as u64).saturating_add(1);
            let found = any_end(alloc, valid, depth, bytes, 0, all)?;
            Ok(found == Some(0))
        }
        Err(ItemFault::OutOfMemory) => Err(OutOfMemory),
    }
}

#[test]
fn items_end_where_the_reader_ends_them_at_each_depth(rt: HostRuntime) -> Result<(), Fail> {
    let alloc = rt.alloc();
    for order in [Order::Bytewise, Order::LengthFirst] {
        for depth in [0, 1, 2, 32] {
            assert!(rt; depth <= 32);
            let valid = program(alloc, depth, order)?;
            for bytes in ROWS.iter() {
                assert!(rt;
                    agrees(alloc, &valid, depth, order, bytes)?,
                    "at depth {depth}"
                );
            }
        }
    }
    Ok(())
}

#[test]
fn what_is_cut_off_ends_where_the_reader_ends_it(rt: HostRuntime) -> Result<(), Fail> {
    let alloc = rt.alloc();
    let valid = program(alloc, 2, Order::Bytewise)?;
    for bytes in ROWS.iter() {
        for (length, _) in bytes.iter().enumerate() {
            assert!(rt;
                agrees(alloc, &valid, 2, Order::Bytewise, &bytes[..length])?,
                "{length} bytes"
            );
        }
    }
    Ok(())
}

#[test]
fn a_program_has_the_functions_of_every_lower_depth(rt: HostRuntime) -> Result<(), Fail> {
    let alloc = rt.alloc();
    let order = Order::LengthFirst;
    let valid = program(alloc, 3, order)?;
    for depth in 0..4 {
        for bytes in ROWS.iter() {
            assert!(rt;
                agrees(alloc, &valid, depth, order, bytes)?,
                "at depth {depth}"
            );
        }
    }
    assert_eq!(rt; valid.function("any_4"), None);
    Ok(())
}

#[test]
fn the_greatest_depth_is_thirty_two(rt: HostRuntime) -> Result<(), Fail> {
    let alloc = rt.alloc();
    let valid = program(alloc, 32, Order::Bytewise)?;
    let mut nested = [0x81; 34];
    nested[33] = 0x80;
    assert_eq!(rt; any_end(alloc, &valid, 32, &nested, 2, 32)?, Some(34));
    assert_eq!(rt; any_end(alloc, &valid, 32, &nested, 1, 34)?, Some(0));
    assert_eq!(rt; any_end(alloc, &valid, 31, &nested, 2, 33)?, Some(0));
    assert_eq!(rt; any_end(alloc, &valid, 31, &nested, 3, 31)?, Some(34));
    Ok(())
}

/// Whether `item_end` finds nothing in any of the first bytes that are fewer than so many.
fn is_refused_before(
    alloc: Global,
    valid: &Valid,
    bytes: &[u8],
    behind: usize,
) -> Result<bool, OutOfMemory> {
    for (length, _) in bytes.iter().enumerate() {
        let found = item_end(alloc, valid, &bytes[..length], length as u64)?;
        if length < behind && found != Some(0) {
            return Ok(false);
        }
    }
    Ok(true)
}

#[test]
fn item_end_ends_valid_items_and_none_that_is_cut_off(rt: HostRuntime) -> Result<(), Fail> {
    let alloc = rt.alloc();
    let valid = program(alloc, 0, Order::Bytewise)?;
    for bytes in ROWS.iter() {
        match read_item(alloc, Order::Bytewise, bytes, 0, 64) {
            Ok((_, behind)) => {
                let end = behind as u64;
                let found = item_end(alloc, &valid, bytes, end)?;
                assert_eq!(rt; found, Some(end));
                assert!(rt; is_refused_before(alloc, &valid, bytes, behind)?);
            }
            Err(ItemFault::At { .. }) => {}
            Err(ItemFault::OutOfMemory) => return Err(OutOfMemory.into()),
        }
    }
    Ok(())
}

/// From `any_0` down to `load_be16` seven functions run inside each other, and two more for each level: an `any_d` and
/// the items or pairs that it calls for.
#[test]
fn the_call_depth_grows_by_two_a_level(rt: HostRuntime) -> Result<(), Fail> {
    let alloc = rt.alloc();
    assert_eq!(rt; program(alloc, 0, Order::Bytewise)?.call_depth(), 7);
    assert_eq!(rt; program(alloc, 1, Order::LengthFirst)?.call_depth(), 9);
    assert_eq!(rt; program(alloc, 32, Order::Bytewise)?.call_depth(), 71);
    Ok(())
}

#[test]
fn every_fixed_function_is_there(rt: HostRuntime) -> Result<(), Fail> {
    let names = [
        "head_end",
        "head_within",
        "own_end",
        "item_end",
        "utf8_valid",
        "compare_bytes",
        "any_0",
        "put_head",
        "copy_bytes",
    ];
    let alloc = rt.alloc();
    let valid = program(alloc, 0, Order::Bytewise)?;
    for name in names {
        assert!(rt; valid.function(name).is_some(), "{name}");
    }
    assert_eq!(rt; valid.function("any_1"), None);
    Ok(())
}
