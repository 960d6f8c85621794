use ecd_head::{Head, HeadFault, NoRoom, read_head, write_head};
use std::test::Fail;

#[test]
fn a_head_is_read_or_its_first_fault_named(rt: HostRuntime) -> Result<(), Fail> {
    let rows: [(&[u8], HeadFault); 11] = [
        (&[], HeadFault::Short),
        (&[0x18, 0x17], HeadFault::NotShortest),
        (&[0x18, 0x00], HeadFault::NotShortest),
        (&[0xd9, 0x00, 0xff], HeadFault::NotShortest),
        (&[0x1c], HeadFault::Reserved),
        (&[0x5f], HeadFault::Indefinite),
        (&[0xff], HeadFault::Indefinite),
        (&[0xf9], HeadFault::Float),
        (&[0xf8, 0x1f], HeadFault::BadSimple),
        (&[0xf8], HeadFault::Short),
        (&[0x19, 0x03], HeadFault::Short),
    ];
    for (bytes, fault) in rows.iter() {
        assert_eq!(rt; read_head(bytes, 0), Err(*fault));
    }
    assert_eq!(rt;
        read_head(&[0x19, 0x03, 0xe8], 0),
        Ok((
            Head {
                major: 0,
                arg: 1000
            },
            3
        ))
    );
    assert_eq!(rt;
        read_head(&[0, 0xf8, 0xff], 1),
        Ok((Head { major: 7, arg: 255 }, 3))
    );
    Ok(())
}

#[test]
fn a_head_is_written_in_its_shortest_form_or_not_at_all(rt: HostRuntime) -> Result<(), Fail> {
    // RFC 8949, Appendix A.
    let rows: [(u8, u64, &[u8]); 7] = [
        (0, 23, &[0x17]),
        (0, 24, &[0x18, 0x18]),
        (1, 255, &[0x38, 0xff]),
        (4, 1000, &[0x99, 0x03, 0xe8]),
        (0, 1_000_000, &[0x1a, 0x00, 0x0f, 0x42, 0x40]),
        (7, 32, &[0xf8, 0x20]),
        (
            0,
            u64::MAX,
            &[0x1b, 0xff, 0xff, 0xff, 0xff, 0xff, 0xff, 0xff, 0xff],
        ),
    ];
    for (major, arg, bytes) in rows.iter() {
        let mut into = [0xee; 10];
        let head = Head {
            major: *major,
            arg: *arg,
        };
        let is_writable = *major < 7 || *arg == 32;
        assert!(rt; is_writable && *major < 8);
        assert_eq!(rt; write_head(head, &mut into, 1), Ok(1 + bytes.len()));
        assert_eq!(rt;
            into.starts_with(&[0xee]) && into[1..].starts_with(bytes),
            true
        );
    }
    let mut narrow = [0xee; 3];
    assert_eq!(rt;
        write_head(Head { major: 0, arg: 24 }, &mut narrow, 2),
        Err(NoRoom)
    );
    assert_eq!(rt; narrow, [0xee; 3]);
    Ok(())
}

#[test]
fn faults_have_numbers_and_words(rt: HostRuntime) -> Result<(), Fail> {
    assert_eq!(rt; HeadFault::Short as u8, 1);
    assert_eq!(rt; HeadFault::Float as u8, 5);
    assert_eq!(rt; HeadFault::BadSimple as u8, 6);
    let text = format!(in rt.alloc(); "{}; {}", HeadFault::Float, NoRoom)?;
    assert_eq!(rt;
        text.as_str(),
        "the item is a float; there is no room for the encoding"
    );
    Ok(())
}
