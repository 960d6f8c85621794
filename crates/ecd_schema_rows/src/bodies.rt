//! Schemas, and what is known of their names.

use ecd_bodies::RuleTable;
use ecd_graph::{Edge, add_edge};
use ecd_lex::{MOST_BYTES, lex};
use ecd_list::OutOfMemory;
use ecd_parse::parse;
use ecd_prelude::socket::{is_group_socket, is_socket};
use std::alloc::Global;
use std::test::Fail;

fn table_of(alloc: Global, text: &str) -> Result<RuleTable, Fail> {
    if text.len() > MOST_BYTES {
        return Err("too long".into());
    }
    let tokens = lex(alloc, text).ok().ok_or("a fault of lexemes")?;
    let tree = parse(alloc, &tokens, text.len() as u32).ok();
    let tree = tree.ok_or("a fault of grammar")?;
    let table = RuleTable::new(alloc, tree).ok();
    Ok(table.ok_or("no memory")?)
}

/// The place of a body.
fn place_of(table: &RuleTable, name: &str, index: u32) -> Option<u32> {
    match table.body(name.as_bytes(), index) {
        Some(rule) => Some(rule.at),
        None => None,
    }
}

#[test]
fn names_are_groups_or_types(rt: HostRuntime) -> Result<(), Fail> {
    for (text, name, want) in [
        ("a /= int a /= tstr", "a", false),
        ("a = (int)", "a", false),
        ("a = (int, int)", "a", true),
        ("a = ((x: int))", "a", true),
        ("a //= int", "a", true),
        ("a = b b = c c = (int, int)", "a", true),
        ("c = (int, int) b = c a = b", "a", true),
        ("a = b / c b = (int, int)", "a", false),
        ("a = int a /= b b = (int, int)", "a", true),
        ("a = b b = a", "a", false),
        ("a = b b = a a //= int", "b", true),
        ("$s = (int, int)", "$s", false),
        ("$s //= int", "$s", false),
        ("a = $s $s = (int, int)", "a", false),
        ("a = $$x", "a", true),
        ("a = int", "$$x", true),
        ("$$x /= int", "$$x", true),
        ("a<b> = b b = (int, int)", "a", false),
        ("a<$$x> = $$x", "a", false),
        ("a<b> = c<b> b = int c<d> = (d, d)", "a", true),
        ("a = int", "int", false),
        ("int //= tstr", "int", true),
        ("int //= tstr", "integer", false),
        ("bstr //= tstr", "bytes", true),
        ("a = float16", "a", false),
        ("a = int", "b", false),
    ] {
        let table = table_of(rt.alloc(), text)?;
        assert_eq!(rt; table.is_group(name.as_bytes()), want, "{text}, {name}");
    }
    Ok(())
}

#[test]
fn bodies_add_up_in_order(rt: HostRuntime) -> Result<(), Fail> {
    let text = "$s /= int a = 1 $s /= tstr int /= a b<c, d> = c b = 2";
    let table = table_of(rt.alloc(), text)?;
    for (name, count, first, second) in [
        ("$s", 2, Some(0), Some(16)),
        ("a", 1, Some(10), None),
        ("int", 2, Some(0), Some(27)),
        ("tstr", 1, Some(0), None),
        ("b", 2, Some(36), Some(48)),
        ("float", 0, None, None),
        ("c", 0, None, None),
    ] {
        assert_eq!(rt; table.body_count(name.as_bytes()), count, "{name}");
        assert_eq!(rt; place_of(&table, name, 0), first, "{name}");
        assert_eq!(rt; place_of(&table, name, 1), second, "{name}");
        assert_eq!(rt; place_of(&table, name, 2), None, "{name}");
    }
    Ok(())
}

#[test]
fn the_text_adds_bodies_to_names_of_the_prelude(rt: HostRuntime) -> Result<(), Fail> {
    let table = table_of(rt.alloc(), "a = 1 int /= tstr float /= int text //= tstr")?;
    for (name, count, first, second) in [
        ("int", 2, Some(0), Some(6)),
        ("float", 1, Some(18), None),
        ("text", 2, Some(0), Some(31)),
        ("tstr", 1, Some(0), None),
    ] {
        assert_eq!(rt; table.body_count(name.as_bytes()), count, "{name}");
        assert_eq!(rt; place_of(&table, name, 0), first, "{name}");
        assert_eq!(rt; place_of(&table, name, 1), second, "{name}");
    }
    Ok(())
}

#[test]
fn names_are_defined_by_the_text_or_the_prelude(rt: HostRuntime) -> Result<(), Fail> {
    let text = "a<b, c> = d a = int tstr /= int";
    let table = table_of(rt.alloc(), text)?;
    for (name, is_defined, is_in_text, arity, first) in [
        ("a", true, true, 2, Some(32)),
        ("int", true, false, 0, Some(3)),
        ("tstr", true, true, 0, Some(6)),
        ("float32-64", true, false, 0, None),
        ("b", false, false, 0, None),
        ("d", false, false, 0, None),
        ("$$x", false, false, 0, None),
    ] {
        let name_bytes = name.as_bytes();
        assert_eq!(rt; table.is_defined(name_bytes), is_defined, "{name}");
        assert_eq!(rt; table.is_in_text(name_bytes), is_in_text, "{name}");
        assert_eq!(rt; table.arity(name_bytes), arity, "{name}");
        assert_eq!(rt; table.first(name_bytes), first, "{name}");
    }
    assert_eq!(rt; table.rule_count(), 35);
    assert_eq!(rt; table.text_rules().len(), 3);
    for (number, want) in [(0, Some(0)), (33, Some(12)), (34, Some(20)), (35, None)] {
        let place = table.rule(number).map(|rule| rule.at);
        assert_eq!(rt; place, want, "{number}");
    }
    Ok(())
}

#[test]
fn the_prelude_decides_the_number_of_parameters_of_its_names(rt: HostRuntime) -> Result<(), Fail> {
    let table = table_of(rt.alloc(), "int<t> = t float16<t> = t a<t> = t")?;
    for (name, arity) in [("int", 0), ("float16", 0), ("float32", 0), ("a", 1)] {
        assert_eq!(rt; table.arity(name.as_bytes()), arity, "{name}");
    }
    Ok(())
}

#[test]
fn names_that_lead_round_to_each_other_alone_are_types(rt: HostRuntime) -> Result<(), Fail> {
    let table = table_of(rt.alloc(), "a = b b = a c = (a)")?;
    for name in ["a", "b", "c"] {
        assert!(rt; !table.is_group(name.as_bytes()), "{name}");
    }
    Ok(())
}

#[test]
fn a_long_chain_leads_to_a_group(rt: HostRuntime) -> Result<(), Fail> {
    let mut text = String::new(rt.alloc());
    for i in 0..5_000u32 {
        let rule = format!(in rt.alloc(); "n{i} = n{} ", i + 1)?;
        text.push_str(rule.as_str())?;
    }
    text.push_str("n5000 = (int, int)")?;
    let table = table_of(rt.alloc(), text.as_str())?;
    for name in ["n0", "n1", "n4999", "n5000"] {
        assert!(rt; table.is_group(name.as_bytes()), "{name}");
    }
    Ok(())
}

#[test]
fn a_name_may_have_ten_thousand_bodies(rt: HostRuntime) -> Result<(), Fail> {
    let mut text = String::new(rt.alloc());
    for _ in 0..10_000u32 {
        text.push_str("a /= int ")?;
    }
    let table = table_of(rt.alloc(), text.as_str())?;
    assert_eq!(rt; table.body_count("a".as_bytes()), 10_000);
    assert_eq!(rt; place_of(&table, "a", 9_999), Some(89_991));
    Ok(())
}

#[test]
fn sockets_begin_with_a_dollar_sign(rt: HostRuntime) -> Result<(), Fail> {
    for (name, is_a_socket, is_of_a_group) in [
        ("$a", true, false),
        ("$", true, false),
        ("$$a", true, true),
        ("$$", true, true),
        ("$a$", true, false),
        ("a$$", false, false),
        ("", false, false),
    ] {
        assert_eq!(rt; is_socket(name.as_bytes()), is_a_socket, "{name}");
        assert_eq!(rt; is_group_socket(name.as_bytes()), is_of_a_group, "{name}");
    }
    Ok(())
}

#[test]
fn an_edge_wants_both_ends(rt: HostRuntime) -> Result<(), Fail> {
    let mut edges: Vec<Edge> = Vec::new(rt.alloc());
    for (from, to, count) in [
        (Some(1), None, 0),
        (None, Some(2), 0),
        (Some(1), Some(2), 1),
        (None, None, 1),
        (Some(3), Some(1), 2),
    ] {
        add_edge(&mut edges, from, to).ok().ok_or("no memory")?;
        assert_eq!(rt; edges.len(), count);
    }
    let last = edges.last().map(|edge| (edge.from, edge.to));
    assert_eq!(rt; last, Some((3, 1)));
    Ok(())
}
