use ecd_keyorder::{Order, compare};
use std::cmp::Ordering;
use std::test::Fail;

#[test]
fn encodings_compare_byte_by_byte(rt: HostRuntime) -> Result<(), Fail> {
    // The keys of RFC 8949, section 4.2.1, in their order.
    let keys: [&[u8]; 8] = [
        &[0x0a],
        &[0x18, 0x64],
        &[0x20],
        &[0x61, 0x7a],
        &[0x62, 0x61, 0x61],
        &[0x81, 0x18, 0x64],
        &[0x81, 0x20],
        &[0xf4],
    ];
    for pair in keys.windows(2) {
        assert_eq!(rt; compare(Order::Bytewise, pair[0], pair[1]), Ordering::Less);
        assert_eq!(rt;
            compare(Order::Bytewise, pair[1], pair[0]),
            Ordering::Greater
        );
    }
    assert_eq!(rt;
        compare(Order::Bytewise, &[0x61], &[0x61, 0x61]),
        Ordering::Less
    );
    assert_eq!(rt; compare(Order::Bytewise, &[0x20], &[0x20]), Ordering::Equal);
    Ok(())
}

#[test]
fn shorter_encodings_come_first(rt: HostRuntime) -> Result<(), Fail> {
    // The keys of RFC 8949, section 4.2.3, in their order.
    let keys: [&[u8]; 8] = [
        &[0x0a],
        &[0x20],
        &[0xf4],
        &[0x18, 0x64],
        &[0x61, 0x7a],
        &[0x81, 0x20],
        &[0x62, 0x61, 0x61],
        &[0x81, 0x18, 0x64],
    ];
    for pair in keys.windows(2) {
        assert_eq!(rt;
            compare(Order::LengthFirst, pair[0], pair[1]),
            Ordering::Less
        );
        assert_eq!(rt;
            compare(Order::LengthFirst, pair[1], pair[0]),
            Ordering::Greater
        );
    }
    assert_eq!(rt;
        compare(Order::LengthFirst, &[0x20], &[0x20]),
        Ordering::Equal
    );
    Ok(())
}
