//! Compiled readers on bytes, and tables of such cases.

use ecd_compile::compile;
use ecd_keyorder::Order;
use ecd_reader::consumed;
use ecd_vectors::tables::numbers;
use ecd_vectors::{Case, Report, check_cases};
use std::test::Fail;

#[test]
fn one_byte_is_taken_where_it_is_the_number(rt: HostRuntime) -> Result<(), Fail> {
    let compiled = compile(rt.alloc(), b"x = 5", "x", 0, Order::Bytewise).ok();
    let compiled = compiled.ok_or("refused")?;
    for (input, taken) in [
        (b"".as_slice(), 0),
        (b"\x05".as_slice(), 1),
        (b"\x05\x06".as_slice(), 1),
        (b"\x06\x05".as_slice(), 0),
    ] {
        let found = consumed(rt.alloc(), &compiled.program, input)?;
        assert_eq!(rt; found, taken, "{input:?}");
    }
    Ok(())
}

fn case(schema: &'static str, depth: u8, bytes: &'static str, consumed: u64) -> Case {
    Case {
        schema,
        root: "x",
        depth,
        bytes,
        consumed,
    }
}

#[test]
fn a_number_is_taken_and_another_refused(rt: HostRuntime) -> Result<(), Fail> {
    let cases = [case("x = 5", 0, "05", 1), case("x = 5", 0, "06", 0)];
    let report = check_cases(rt.alloc(), cases.as_slice())?;
    assert_eq!(rt;
        report,
        Report {
            passed: 2,
            first_failed: None
        }
    );
    Ok(())
}

#[test]
fn the_table_of_numbers_passes(rt: HostRuntime) -> Result<(), Fail> {
    let report = check_cases(rt.alloc(), numbers().as_slice())?;
    assert_eq!(rt;
        report,
        Report {
            passed: 8,
            first_failed: None
        }
    );
    let report = check_cases(rt.alloc(), &[])?;
    assert_eq!(rt;
        report,
        Report {
            passed: 0,
            first_failed: None
        }
    );
    Ok(())
}

#[test]
fn a_case_that_cannot_be_run_does_not_pass(rt: HostRuntime) -> Result<(), Fail> {
    let cases = [
        case("x = 5", 0, "05", 1),
        case("x = 5", 33, "05", 1),
        case("x = 5", 32, "05", 1),
        case("x = 5", 0, "0", 0),
        case("x = 5", 0, "0g", 0),
        case("x = [", 0, "05", 0),
        case("y = 5", 0, "05", 0),
        case("x = 5", 0, "05", 0),
    ];
    let report = check_cases(rt.alloc(), cases.as_slice())?;
    assert_eq!(rt;
        report,
        Report {
            passed: 2,
            first_failed: Some(1)
        }
    );
    Ok(())
}
