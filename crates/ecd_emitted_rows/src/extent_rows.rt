//! The ends of items, found by the emitted functions, against the reader of items.

use crate::head_rows::{ask, machine, window};
use ecd_cbuild::builder::{Builder, Valid};
use ecd_ceval::{Arg, Machine};
use ecd_fixed_heads::{extents, heads};
use ecd_item::{ItemFault, OutOfMemory, read_item};
use ecd_keyorder::Order;
use std::alloc::Global;
use std::test::Fail;

fn program(alloc: Global) -> Result<Valid, OutOfMemory> {
    let mut builder = Builder::new(alloc);
    heads(alloc, &mut builder)?;
    extents(alloc, &mut builder)?;
    Ok(builder.finish())
}

/// What `item_end` answers within the steps of an answer that looks at so many bytes.
fn end<'a>(machine: &mut Machine<'a>, args: &[Arg; 3], looked_at: u64) -> Option<u64> {
    let limit = looked_at.saturating_mul(144).saturating_add(144);
    ask(machine, "item_end", args, limit)
}

/// Bytes that tell of extents: strings, arrays, maps and tags that end with the bytes, before them or behind them, and
/// lengths and counts that no bytes could hold. Where they begin with an item it is valid.
const FRONTS: [&[u8]; 31] = [
    &[],
    &[0x20, 0x20],
    &[0x18],
    &[0x18, 0x17],
    &[0x41],
    &[0x44, 0x01, 0x02, 0x03],
    &[0x44, 0x01, 0x02, 0x03, 0x04],
    &[0x44, 0x01, 0x02, 0x03, 0x04, 0x05],
    &[0x5b, 0xff, 0xff, 0xff, 0xff, 0xff, 0xff, 0xff, 0xff, 0x00],
    &[0x64, 0x49, 0x45, 0x54, 0x46],
    &[0x7b, 0xff, 0xff, 0xff, 0xff, 0xff, 0xff, 0xff, 0xff, 0x00],
    &[0x80, 0x80],
    &[0x81],
    &[0x82, 0x80, 0x80],
    &[0x83, 0x01, 0x82, 0x02, 0x03, 0x82, 0x04],
    &[0x83, 0x01, 0x82, 0x02, 0x03, 0x82, 0x04, 0x05, 0x06],
    &[0x98, 0x19, 0x00],
    &[0x9b, 0xff, 0xff, 0xff, 0xff, 0xff, 0xff, 0xff, 0xff],
    &[0x9f, 0xff],
    &[0xa1, 0x01],
    &[0xa2, 0x01, 0x02],
    &[0xa2, 0x01, 0x02, 0x03, 0x04],
    &[0xa1, 0x81, 0x80, 0xa1, 0x00, 0x01, 0x02],
    &[0xbb, 0x7f, 0xff, 0xff, 0xff, 0xff, 0xff, 0xff, 0xff],
    &[0xbb, 0x80, 0x00, 0x00, 0x00, 0x00, 0x00, 0x00, 0x00],
    &[0xbb, 0x80, 0x00, 0x00, 0x00, 0x00, 0x00, 0x00, 0x01, 0x00],
    &[0xc1],
    &[0xc1, 0xc1, 0x81, 0xc1, 0x00, 0x00],
    &[0xdb, 0xff, 0xff, 0xff, 0xff, 0xff, 0xff, 0xff, 0xff, 0xf6],
    &[0xf8, 0x1f],
    &[0x82, 0xf9, 0x00, 0x00],
];

#[test]
fn items_end_where_the_reader_ends_them(rt: HostRuntime) -> Result<(), Fail> {
    let alloc = rt.alloc();
    let valid = program(alloc)?;
    for bytes in FRONTS.iter() {
        let mut machine = machine(alloc, &valid, bytes)?;
        let length = bytes.len() as u64;
        match read_item(alloc, Order::Bytewise, bytes, 0, 64) {
            Ok((_, behind)) => {
                let behind = behind as u64;
                let found = end(&mut machine, &window(0, length, 0), behind);
                assert_eq!(rt; found, Some(behind));
                let whole = end(&mut machine, &window(0, behind, 0), behind);
                assert_eq!(rt; whole, Some(behind));
                if behind > 0 {
                    let cut_off = end(&mut machine, &window(0, behind - 1, 0), behind - 1);
                    assert_eq!(rt; cut_off, Some(0));
                }
            }
            Err(ItemFault::At { .. }) => {
                let found = end(&mut machine, &window(0, length, 0), length);
                assert_eq!(rt; found, Some(0));
            }
            Err(ItemFault::OutOfMemory) => return Err(OutOfMemory.into()),
        }
    }
    Ok(())
}

/// What the reader of items refuses, and `item_end` does not: texts that are no UTF-8, keys in another order or twice, and
/// items of a great depth.
#[test]
fn texts_key_order_and_depth_are_not_judged(rt: HostRuntime) -> Result<(), Fail> {
    let mut nested = [0x81; 80];
    nested[79] = 0x80;
    let rows: [(&[u8], u64); 7] = [
        (&[0x62, 0xc3, 0x28], 3),
        (&[0x63, 0xed, 0xa0, 0x80], 4),
        (&[0xa2, 0x02, 0x00, 0x01, 0x00], 5),
        (&[0xa2, 0x01, 0x00, 0x01, 0x00], 5),
        (&[0x82, 0x61, 0xff, 0xa1, 0x61, 0xfe, 0x00, 0x00], 7),
        (&[0xa2, 0x02, 0x00, 0x01], 0),
        (&nested, 80),
    ];
    let alloc = rt.alloc();
    let valid = program(alloc)?;
    for (bytes, behind) in rows.iter() {
        let mut machine = machine(alloc, &valid, bytes)?;
        let length = bytes.len() as u64;
        let looked_at = if *behind == 0 { length } else { *behind };
        let found = end(&mut machine, &window(0, length, 0), looked_at);
        assert_eq!(rt; found, Some(*behind));
        assert!(rt; read_item(alloc, Order::Bytewise, bytes, 0, 64).is_err());
    }
    Ok(())
}

#[test]
fn an_item_ends_inside_its_window(rt: HostRuntime) -> Result<(), Fail> {
    let alloc = rt.alloc();
    let valid = program(alloc)?;
    let bytes = [0x00, 0x82, 0x41, 0x07, 0xa1, 0x01, 0x02, 0x00];
    let mut machine = machine(alloc, &valid, &bytes)?;
    assert_eq!(rt; end(&mut machine, &window(0, 8, 1), 6), Some(7));
    assert_eq!(rt; end(&mut machine, &window(0, 7, 1), 6), Some(7));
    assert_eq!(rt; end(&mut machine, &window(0, 6, 1), 5), Some(0));
    assert_eq!(rt; end(&mut machine, &window(1, 6, 0), 6), Some(6));
    assert_eq!(rt; end(&mut machine, &window(1, 5, 0), 5), Some(0));
    assert_eq!(rt; end(&mut machine, &window(0, 8, 4), 3), Some(7));
    assert_eq!(rt; end(&mut machine, &window(0, 8, 8), 0), Some(0));
    assert_eq!(rt; end(&mut machine, &window(8, 0, 0), 0), Some(0));
    Ok(())
}

#[test]
fn the_parts_of_an_extent_answer_alone(rt: HostRuntime) -> Result<(), Fail> {
    let rows: [(&[u8], u64, u64); 9] = [
        (&[0x18, 0x2a], 2, 0),
        (&[0x42, 0x01, 0x02, 0x03], 3, 0),
        (&[0x62, 0x61, 0x62], 3, 0),
        (&[0x82, 0x01, 0x02], 1, 2),
        (&[0xa2, 0x01, 0x02, 0x03, 0x04], 1, 4),
        (&[0xa2, 0x01], 0, 4),
        (&[0xc1, 0x00], 1, 1),
        (&[0xf5], 1, 0),
        (&[0x43, 0x01, 0x02], 0, 0),
    ];
    let alloc = rt.alloc();
    let valid = program(alloc)?;
    for (bytes, behind, inside) in rows.iter() {
        let mut machine = machine(alloc, &valid, bytes)?;
        let args = window(0, bytes.len() as u64, 0);
        assert_eq!(rt; ask(&mut machine, "own_end", &args, 97), Some(*behind));
        let [place, _, at] = args;
        let found = ask(&mut machine, "items_inside", &[place, at], 33);
        assert_eq!(rt; found, Some(*inside));
    }
    Ok(())
}
