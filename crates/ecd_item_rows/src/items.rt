use ecd_item::{
    Boxed, ByteList, Cause, Item, ItemFault, NoRoom, OutOfMemory, Pair, PairList, is_valid,
    length_of, read_item, write_item,
};
use ecd_keyorder::Order;
use std::alloc::Global;
use std::test::Fail;

/// Bytes that hold no item within the depth, keys in the bytewise order, and the place and cause of the first fault.
const FAULTS: [(&[u8], u8, usize, u8); 54] = [
    (&[], 0, 0, 1),
    (&[0x18], 0, 0, 1),
    (&[0x19, 0x03], 0, 0, 1),
    (&[0x1a, 0x00, 0x01, 0x00], 0, 0, 1),
    (&[0x1b, 0, 0, 0, 1, 0, 0, 0], 0, 0, 1),
    (&[0xf8], 0, 0, 1),
    (&[0x81], 1, 1, 1),
    (&[0xa1, 0x00], 1, 2, 1),
    (&[0xc1], 1, 1, 1),
    (&[0x82, 0x41, 0x61], 1, 3, 1),
    (&[0x1c], 0, 0, 2),
    (&[0x1d], 0, 0, 2),
    (&[0x1e], 0, 0, 2),
    (&[0xfc], 0, 0, 2),
    (&[0x81, 0x3d], 1, 1, 2),
    (&[0x1f], 0, 0, 3),
    (&[0x5f, 0x40, 0xff], 0, 0, 3),
    (&[0x7f, 0xff], 0, 0, 3),
    (&[0x9f, 0xff], 1, 0, 3),
    (&[0xbf, 0xff], 1, 0, 3),
    (&[0xff], 0, 0, 3),
    (&[0x18, 0x17], 0, 0, 4),
    (&[0x18, 0x00], 0, 0, 4),
    (&[0x39, 0x00, 0xff], 0, 0, 4),
    (&[0x5a, 0x00, 0x00, 0xff, 0xff], 0, 0, 4),
    (&[0x9b, 0, 0, 0, 0, 0xff, 0xff, 0xff, 0xff], 1, 0, 4),
    (&[0xd8, 0x01, 0x00], 1, 0, 4),
    (&[0xf9, 0x3c, 0x00], 0, 0, 5),
    (&[0xf9], 0, 0, 5),
    (&[0xfa, 0, 0, 0, 0], 0, 0, 5),
    (&[0xfb], 0, 0, 5),
    (&[0xf8, 0x1f], 0, 0, 6),
    (&[0xf8, 0x00], 0, 0, 6),
    (&[0x62, 0xc3, 0x28], 0, 0, 7),
    (&[0x62, 0xc0, 0x80], 0, 0, 7),
    (&[0x63, 0xed, 0xa0, 0x80], 0, 0, 7),
    (&[0x61, 0xff], 0, 0, 7),
    (&[0x64, 0xf4, 0x90, 0x80, 0x80], 0, 0, 7),
    (&[0xa2, 0x02, 0x00, 0x01, 0x00], 1, 3, 8),
    (&[0xa2, 0x01, 0x00, 0x01, 0x00], 1, 3, 8),
    (&[0xa2, 0x61, 0x7a, 0x00, 0x20, 0x00], 1, 4, 8),
    (&[0x81, 0xa2, 0x20, 0x00, 0x18, 0x64, 0x00], 2, 4, 8),
    (&[0xa2, 0x80, 0x00, 0x62, 0xff, 0xff, 0x00], 2, 3, 7),
    // The second key is below the first too.
    (&[0xa2, 0x62, 0x61, 0x61, 0x00, 0x61, 0xff, 0x00], 1, 5, 7),
    (&[0x80], 0, 0, 9),
    (&[0xa0], 0, 0, 9),
    (&[0xc0, 0x00], 0, 0, 9),
    (
        &[0xa2, 0x61, 0x61, 0x01, 0x61, 0x62, 0x82, 0x02, 0x03],
        1,
        6,
        9,
    ),
    // Counts and lengths that no memory holds.
    (
        &[0x9b, 0xff, 0xff, 0xff, 0xff, 0xff, 0xff, 0xff, 0xff],
        1,
        9,
        1,
    ),
    (
        &[0xbb, 0xff, 0xff, 0xff, 0xff, 0xff, 0xff, 0xff, 0xff],
        1,
        9,
        1,
    ),
    (
        &[0x5b, 0xff, 0xff, 0xff, 0xff, 0xff, 0xff, 0xff, 0xff, 0x00],
        0,
        0,
        10,
    ),
    (
        &[0x7b, 0xff, 0xff, 0xff, 0xff, 0xff, 0xff, 0xff, 0xff, 0x00],
        0,
        0,
        10,
    ),
    (&[0x42, 0x00], 0, 0, 10),
    (&[0x63, 0xff], 0, 0, 10),
];

#[test]
fn the_first_fault_is_named(rt: HostRuntime) -> Result<(), Fail> {
    for (bytes, depth, place, cause) in FAULTS.iter() {
        assert!(rt; *depth <= 64);
        match read_item(rt.alloc(), Order::Bytewise, bytes, 0, *depth) {
            Ok(_) => assert!(rt; false, "read {place} {cause}"),
            Err(fault) => {
                assert_eq!(rt;
                    fault,
                    ItemFault::At {
                        place: *place,
                        cause: *cause
                    },
                    "at {place} {cause}"
                )
            }
        }
    }
    Ok(())
}

/// Encodings, most of them of RFC 8949, Appendix A, and how deep their items nest.
const ENCODINGS: [(&[u8], u8); 24] = [
    (&[0x00], 0),
    (&[0x17], 0),
    (&[0x18, 0x18], 0),
    (&[0x19, 0x03, 0xe8], 0),
    (&[0x1a, 0x00, 0x0f, 0x42, 0x40], 0),
    (&[0x1b, 0xff, 0xff, 0xff, 0xff, 0xff, 0xff, 0xff, 0xff], 0),
    (&[0x3b, 0xff, 0xff, 0xff, 0xff, 0xff, 0xff, 0xff, 0xff], 0),
    (&[0x40], 0),
    (&[0x44, 0x01, 0x02, 0x03, 0x04], 0),
    (&[0x60], 0),
    (&[0x64, 0x49, 0x45, 0x54, 0x46], 0),
    (&[0x62, 0xc3, 0xbc], 0),
    (&[0x64, 0xf0, 0x90, 0x85, 0x91], 0),
    (&[0xf4], 0),
    (&[0xf8, 0xff], 0),
    (&[0x80], 1),
    (&[0x83, 0x01, 0x82, 0x02, 0x03, 0x82, 0x04, 0x05], 2),
    (&[0xa0], 1),
    (&[0xa2, 0x01, 0x02, 0x03, 0x04], 1),
    (&[0xa2, 0x61, 0x61, 0x01, 0x61, 0x62, 0x82, 0x02, 0x03], 2),
    (&[0x82, 0x61, 0x61, 0xa1, 0x61, 0x62, 0x61, 0x63], 2),
    (&[0xc1, 0x1a, 0x51, 0x4b, 0x67, 0xb0], 1),
    (&[0xd8, 0x18, 0x45, 0x64, 0x49, 0x45, 0x54, 0x46], 1),
    // The keys of section 4.2.1: 10, 100, -1, "z", "aa", [100], [-1] and false.
    (
        &[
            0xa8, 0x0a, 0x00, 0x18, 0x64, 0x00, 0x20, 0x00, 0x61, 0x7a, 0x00, 0x62, 0x61, 0x61,
            0x00, 0x81, 0x18, 0x64, 0x00, 0x81, 0x20, 0x00, 0xf4, 0x00,
        ],
        2,
    ),
];

#[test]
fn an_encoding_is_read_measured_and_written(rt: HostRuntime) -> Result<(), Fail> {
    for (bytes, depth) in ENCODINGS.iter() {
        assert!(rt; *depth <= 64);
        match read_item(rt.alloc(), Order::Bytewise, bytes, 0, *depth) {
            Err(fault) => assert!(rt; false, "{fault}"),
            Ok((item, end)) => {
                assert_eq!(rt; end, bytes.len());
                assert_eq!(rt; is_valid(Order::Bytewise, &item, *depth), true);
                assert_eq!(rt; is_valid(Order::Bytewise, &item, 0), *depth == 0);
                assert_eq!(rt; length_of(Order::Bytewise, &item), bytes.len() as u64);
                let mut wide = [0xee; 30];
                assert_eq!(rt;
                    write_item(Order::Bytewise, &item, &mut wide, 1),
                    Ok(1 + bytes.len())
                );
                assert!(rt; wide[1..].starts_with(bytes) && wide[0] == 0xee && wide[29] == 0xee);
                let mut narrow = [0xee; 30];
                assert_eq!(rt;
                    write_item(Order::Bytewise, &item, &mut narrow, 30),
                    Err(NoRoom)
                );
                assert_eq!(rt; narrow, [0xee; 30]);
            }
        }
    }
    Ok(())
}

/// An order, another one, a map whose keys ascend in the first alone, and the place of the first key that does not ascend in the other.
/// The keys are those of RFC 8949, sections 4.2.1 and 4.2.3, and the map nests 2 deep.
const ORDERED: [(Order, Order, &[u8], usize); 2] = [
    // 10, 100, -1, "z", "aa", [100], [-1] and false.
    (
        Order::Bytewise,
        Order::LengthFirst,
        &[
            0xa8, 0x0a, 0x00, 0x18, 0x64, 0x00, 0x20, 0x00, 0x61, 0x7a, 0x00, 0x62, 0x61, 0x61,
            0x00, 0x81, 0x18, 0x64, 0x00, 0x81, 0x20, 0x00, 0xf4, 0x00,
        ],
        6,
    ),
    // 10, -1, false, 100, "z", [-1], "aa" and [100].
    (
        Order::LengthFirst,
        Order::Bytewise,
        &[
            0xa8, 0x0a, 0x00, 0x20, 0x00, 0xf4, 0x00, 0x18, 0x64, 0x00, 0x61, 0x7a, 0x00, 0x81,
            0x20, 0x00, 0x62, 0x61, 0x61, 0x00, 0x81, 0x18, 0x64, 0x00,
        ],
        7,
    ),
];

#[test]
fn keys_ascend_in_the_order_that_is_asked(rt: HostRuntime) -> Result<(), Fail> {
    for (order, other, bytes, place) in ORDERED.iter() {
        match read_item(rt.alloc(), *other, bytes, 0, 2) {
            Ok(_) => assert!(rt; false, "read, in the other order"),
            Err(fault) => assert_eq!(rt;
                fault,
                ItemFault::At {
                    place: *place,
                    cause: Cause::KeyOrder.number()
                }
            ),
        }
        match read_item(rt.alloc(), *order, bytes, 0, 2) {
            Err(fault) => assert!(rt; false, "{fault}"),
            Ok((item, end)) => {
                assert_eq!(rt; end, bytes.len());
                assert!(rt; is_valid(*order, &item, 2) && !is_valid(*order, &item, 1));
                assert!(rt; !is_valid(*other, &item, 2));
                assert_eq!(rt; length_of(*order, &item), bytes.len() as u64);
                assert_eq!(rt; length_of(*other, &item), bytes.len() as u64);
                let mut into = [0xee; 24];
                assert_eq!(rt; write_item(*order, &item, &mut into, 0), Ok(24));
                assert!(rt; into.starts_with(bytes));
            }
        }
    }
    Ok(())
}

#[test]
fn items_nest_sixty_four_deep_and_no_deeper(rt: HostRuntime) -> Result<(), Fail> {
    let mut nested = [0x81; 65];
    nested[64] = 0x80;
    let deep = read_item(rt.alloc(), Order::Bytewise, &nested, 1, 64);
    assert!(rt; deep.is_ok());
    match read_item(rt.alloc(), Order::Bytewise, &nested, 0, 64) {
        Ok(_) => assert!(rt; false),
        Err(fault) => assert_eq!(rt;
            fault,
            ItemFault::At {
                place: 64,
                cause: Cause::TooDeep.number()
            }
        ),
    }
    Ok(())
}

/// A map from these integers to 0.
fn map_of(alloc: Global, keys: &[u64]) -> Result<Item, OutOfMemory> {
    let mut pairs = PairList::new(alloc);
    for key in keys {
        pairs.push(Pair {
            key: Item::Uint(*key),
            value: Item::Uint(0),
        })?;
    }
    Ok(Item::Map(pairs))
}

#[test]
fn what_has_no_encoding_is_not_valid(rt: HostRuntime) -> Result<(), Fail> {
    assert!(rt; is_valid(Order::Bytewise, &map_of(rt.alloc(), &[1, 23, 24, 1000])?, 1));
    assert!(rt; !is_valid(Order::Bytewise, &map_of(rt.alloc(), &[1, 1])?, 1));
    assert!(rt; !is_valid(Order::Bytewise, &map_of(rt.alloc(), &[24, 23])?, 1));
    assert!(rt; !is_valid(Order::Bytewise, &map_of(rt.alloc(), &[1])?, 0));
    assert!(rt;
        is_valid(
            Order::Bytewise,
            &Item::Text(ByteList::from_slice(rt.alloc(), &[0xc3, 0xbc])?),
            0
        )
    );
    assert!(rt;
        !is_valid(
            Order::Bytewise,
            &Item::Text(ByteList::from_slice(rt.alloc(), &[0xed, 0xa0, 0x80])?),
            0
        )
    );
    assert!(rt;
        is_valid(
            Order::Bytewise,
            &Item::Bytes(ByteList::from_slice(rt.alloc(), &[0xff])?),
            0
        )
    );
    assert!(rt;
        is_valid(Order::Bytewise, &Item::Simple(23), 0)
            && is_valid(Order::Bytewise, &Item::Simple(32), 0)
    );
    assert!(rt;
        !is_valid(Order::Bytewise, &Item::Simple(24), 0)
            && !is_valid(Order::Bytewise, &Item::Simple(31), 0)
    );
    let tagged = Item::Tag(1, Boxed::new(rt.alloc(), Item::Simple(24))?);
    assert!(rt; !is_valid(Order::Bytewise, &tagged, 9));
    Ok(())
}
