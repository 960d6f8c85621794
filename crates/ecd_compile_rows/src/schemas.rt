//! Schemas that are compiled, and schemas that are refused.

use ecd_compile::{Refusal, compile};
use ecd_keyorder::Order;
use std::test::Fail;

#[test]
fn one_rule_with_a_small_number_is_compiled_and_the_rest_is_refused(
    rt: HostRuntime,
) -> Result<(), Fail> {
    let lex = |place, rule| Some(Refusal::Lex { place, rule });
    let parse = |place, rule| Some(Refusal::Parse { place, rule });
    for (schema, root, refusal) in [
        ("x = 5", "x", None),
        ("x = 0x05 ; five", "x", None),
        ("; a number\nz=23\n\n", "z", None),
        ("a = 0", "a", None),
        ("x = 24", "x", Some(Refusal::NotBuilt)),
        ("x = -1", "x", Some(Refusal::NotBuilt)),
        ("x = 5", "y", Some(Refusal::NotBuilt)),
        ("X = 5", "X", Some(Refusal::NotBuilt)),
        ("xy = 5", "xy", Some(Refusal::NotBuilt)),
        ("x = 5 y = 5", "x", Some(Refusal::NotBuilt)),
        ("x /= 5", "x", Some(Refusal::NotBuilt)),
        ("x = ? 5", "x", Some(Refusal::NotBuilt)),
        ("x = 5 / 6", "x", Some(Refusal::NotBuilt)),
        ("x = 05", "x", lex(4, 4)),
        ("a = %", "a", lex(4, 1)),
        ("", "x", parse(0, 1)),
        ("a = [int", "a", parse(8, 1)),
        ("x = 5\ny = [", "x", parse(11, 1)),
    ] {
        match compile(rt.alloc(), schema.as_bytes(), root, 0, Order::Bytewise) {
            Ok(compiled) => {
                assert!(rt; refusal.is_none(), "{schema:?} is compiled");
                assert!(rt; compiled.text.as_slice().ends_with(b"}\n"));
                assert_eq!(rt; compiled.program.call_depth(), 1);
            }
            Err(found) => assert_eq!(rt; Some(found), refusal, "{schema:?}"),
        }
    }
    let broken = compile(rt.alloc(), b"a = \"\xff", "a", 0, Order::Bytewise);
    assert!(rt; matches!(broken, Err(Refusal::NotUtf8 { place: 5 })));
    Ok(())
}

#[test]
fn broken_rules_of_names_are_refused(rt: HostRuntime) -> Result<(), Fail> {
    for (schema, place, rule) in [
        ("x = 5 x = 5", 6, 1),
        ("x = 5 y = z", 10, 2),
        ("a = int / uint / b", 17, 2),
        ("a = [* a]", 7, 3),
        ("a = b<int, int> b<t> = [t]", 4, 4),
        ("a = g / int g = (int, int)", 4, 5),
    ] {
        match compile(rt.alloc(), schema.as_bytes(), "a", 0, Order::Bytewise) {
            Ok(_) => return Err("is compiled".into()),
            Err(found) => assert_eq!(rt; found, Refusal::Name { place, rule }, "{schema:?}"),
        }
    }
    Ok(())
}

#[test]
fn refusals_are_told_in_words(rt: HostRuntime) -> Result<(), Fail> {
    for (refusal, words) in [
        (Refusal::NotUtf8 { place: 5 }, "rule T0 at byte 5"),
        (Refusal::Lex { place: 4, rule: 3 }, "rule X3 at byte 4"),
        (Refusal::Parse { place: 8, rule: 1 }, "rule P1 at byte 8"),
        (Refusal::Name { place: 6, rule: 1 }, "rule N1 at byte 6"),
        (Refusal::NotBuilt, "not built"),
        (Refusal::OutOfMemory, "out of memory"),
    ] {
        let told = format!(in rt.alloc(); "{refusal}")?;
        assert_eq!(rt; told.as_str(), words);
    }
    Ok(())
}
