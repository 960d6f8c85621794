//! Schemas, and what their names break.

use ecd_lex::{MOST_BYTES, lex};
use ecd_names::{NameFault, NameInfo, Names, resolve};
use ecd_parse::parse;
use ecd_syntax::Tree;
use std::alloc::Global;
use std::test::Fail;

fn tree_of(alloc: Global, text: &str) -> Result<Tree, Fail> {
    if text.len() > MOST_BYTES {
        return Err("too long".into());
    }
    let tokens = lex(alloc, text).ok().ok_or("a fault of lexemes")?;
    let tree = parse(alloc, &tokens, text.len() as u32).ok();
    Ok(tree.ok_or("a fault of grammar")?)
}

/// The rule and the place of the first fault, 0 and 0 where there is none.
fn fault_of(alloc: Global, text: &str) -> Result<(u8, u32), Fail> {
    match resolve(alloc, tree_of(alloc, text)?) {
        Ok(_) => Ok((0, 0)),
        Err(NameFault::At { place, rule }) => Ok((rule, place)),
        Err(NameFault::OutOfMemory) => Err("no memory".into()),
    }
}

fn names_of(alloc: Global, text: &str) -> Result<Names, Fail> {
    let names = resolve(alloc, tree_of(alloc, text)?).ok();
    Ok(names.ok_or("the names are refused")?)
}

#[test]
fn a_name_is_defined_once(rt: HostRuntime) -> Result<(), Fail> {
    for (text, rule, place) in [
        ("a = 1 a = 2", 1, 6),
        ("$s /= int $s = tstr", 1, 10),
        ("a /= 1 a = 2", 1, 7),
        ("a = 1 a /= 2", 0, 0),
        ("a = int b = tstr", 0, 0),
        ("a /= int a /= tstr", 0, 0),
        ("int = uint", 1, 0),
        ("int /= tstr", 1, 0),
        ("int //= tstr", 1, 0),
        ("a = 1 float = uint", 1, 6),
        ("a<t, t> = [t]", 1, 5),
        ("a<t, u, t> = [t, u]", 1, 8),
    ] {
        assert_eq!(rt; fault_of(rt.alloc(), text)?, (rule, place), "{text}");
    }
    Ok(())
}

#[test]
fn a_name_that_is_used_is_defined(rt: HostRuntime) -> Result<(), Fail> {
    for (text, rule, place) in [
        ("a = b", 2, 4),
        ("a = int / uint / b", 2, 17),
        ("a = b<c> b<t> = [t]", 2, 6),
        ("a<t> = [t] b = t", 2, 15),
        ("a = {t: int}", 0, 0),
        ("a = [$x, $$y]", 0, 0),
        ("a = float", 0, 0),
        ("a = ~b b = #6.1(tstr)", 0, 0),
        ("a = &(x: 1, y: 2)", 0, 0),
        ("a = 1..max max = 5", 0, 0),
        ("a = bstr .cbor b b = int", 0, 0),
        ("a = {b => c, ? d: int // #6.5(c)} b = tstr c = int", 0, 0),
        ("a = b<int> b<t> = [t]", 0, 0),
    ] {
        assert_eq!(rt; fault_of(rt.alloc(), text)?, (rule, place), "{text}");
    }
    Ok(())
}

#[test]
fn no_name_leads_back_to_itself(rt: HostRuntime) -> Result<(), Fail> {
    for (text, rule, place) in [
        ("a = [* a]", 3, 7),
        ("a = {a => int}", 3, 5),
        ("a = b<a> b<t> = [t]", 3, 6),
        ("a = [$s] $s /= a", 3, 5),
        ("a = b b = a", 3, 4),
        ("a = [b] b = [c] c = [b]", 3, 13),
        ("c = a a = b b = a", 3, 10),
        ("a = int int /= a", 3, 4),
        ("a<a> = [a]", 0, 0),
        ("int = uint uint = int", 1, 0),
    ] {
        assert_eq!(rt; fault_of(rt.alloc(), text)?, (rule, place), "{text}");
    }
    Ok(())
}

#[test]
fn numbers_of_arguments_and_parameters_agree(rt: HostRuntime) -> Result<(), Fail> {
    for (text, rule, place) in [
        ("a = b<int, int> b<t> = [t]", 4, 4),
        ("a = b b<t> = [t]", 4, 4),
        ("a = int<int>", 4, 4),
        ("x = float16<int>", 4, 4),
        ("x = float<int>", 4, 4),
        ("x = [? number<uint>, time]", 4, 7),
        ("x = float16", 0, 0),
        ("x = [float16-32, float32-64]", 0, 0),
        // A rule, which N1 refuses, gives a name of floats no parameters.
        ("x = float16<int> float16<t> = t", 4, 4),
        ("x = float16 float16<t> = t", 1, 12),
        ("a = $s<int>", 4, 4),
        ("a<t> = t<int>", 4, 7),
        ("a<t> /= t a<t, u> /= u", 4, 10),
        ("a = b<int>", 2, 4),
    ] {
        assert_eq!(rt; fault_of(rt.alloc(), text)?, (rule, place), "{text}");
    }
    Ok(())
}

#[test]
fn kinds_agree(rt: HostRuntime) -> Result<(), Fail> {
    for (text, rule, place) in [
        ("a = g / int g = (int, int)", 5, 4),
        ("a = (int, tstr) / int", 5, 4),
        ("a = ((int, tstr)) / int", 5, 4),
        ("a = (b) / int b = (int, int)", 5, 4),
        ("a = [g .size 1] g = (int, int)", 5, 5),
        ("a = b<g> b<t> = [t] g = (int, int)", 5, 6),
        ("a = {g => int} g = (int, int)", 5, 5),
        ("a = {x: g} g = (int, int)", 5, 8),
        ("a = #6.1(g) g = (int, int)", 5, 9),
        ("a = ~g g = (int, int)", 5, 5),
        ("a = &b b = int", 5, 5),
        ("c = &a a = b b = a", 5, 5),
        ("c = a / int a = b b = a", 3, 16),
        ("a<t> = &t", 5, 8),
        ("a = &$$s", 0, 0),
        ("a = [$$s / int]", 5, 5),
        ("a<$$s> = [$$s / int]", 0, 0),
        ("g = (int, int) a<g> = [g / int]", 0, 0),
    ] {
        assert_eq!(rt; fault_of(rt.alloc(), text)?, (rule, place), "{text}");
    }
    Ok(())
}

#[test]
fn assignments_suit_the_kinds_of_names(rt: HostRuntime) -> Result<(), Fail> {
    for (text, rule, place) in [
        ("$s /= g g = (int, int)", 5, 6),
        ("a = (int, int) a /= int", 5, 15),
        ("a /= (int, int)", 5, 0),
        ("$s //= int", 5, 0),
        ("$s = (int, int)", 5, 0),
        ("$s = (int)", 0, 0),
        ("$$s /= int", 5, 0),
        ("$$s //= int", 0, 0),
    ] {
        assert_eq!(rt; fault_of(rt.alloc(), text)?, (rule, place), "{text}");
    }
    Ok(())
}

#[test]
fn a_rule_that_defines_a_name_again_counts_too(rt: HostRuntime) -> Result<(), Fail> {
    for (text, rule, place) in [
        ("b = a / 5 a = int a = (int, int)", 5, 4),
        ("b = [a] a = int a = b", 3, 5),
    ] {
        assert_eq!(rt; fault_of(rt.alloc(), text)?, (rule, place), "{text}");
    }
    Ok(())
}

#[test]
fn a_name_leads_back_through_every_use(rt: HostRuntime) -> Result<(), Fail> {
    for (text, place) in [
        ("a = b b = a", 4),
        ("a = [b] b = [c] c = [a]", 5),
        ("a = [x: a]", 8),
        ("a = {a => int}", 5),
        ("a = b<a> b<t> = [t]", 6),
        ("a = b<a> b<t> = [int]", 6),
        ("a = #6.1(a)", 9),
        ("a = 1..a", 7),
        ("a = bstr .cbor a", 15),
        ("a = ~b b = [a]", 5),
        ("a = &g g = (x: a)", 5),
        ("a = [$s] $s /= a", 5),
        ("$s /= a a = [$s]", 6),
        ("a = {$$s} $$s //= (x: a)", 5),
        ("$$s //= (x: a) a = {$$s}", 12),
    ] {
        assert_eq!(rt; fault_of(rt.alloc(), text)?, (3, place), "{text}");
    }
    Ok(())
}

#[test]
fn names_of_the_prelude_and_sockets_are_judged_too(rt: HostRuntime) -> Result<(), Fail> {
    for (text, rule, place) in [
        // The prelude defines its names, those of floats among them.
        ("a = 1 float /= int", 1, 6),
        ("a = 1 text //= tstr", 1, 6),
        ("float32<t> = t", 1, 0),
        // A plug defines its name too.
        ("$$s //= (x: int) $$s = (y: int)", 1, 17),
        ("a //= (x: int) a = 1", 1, 15),
        // None of the prelude's names takes an argument, and a socket takes those of its first plug.
        ("a = [? uint<int>]", 4, 7),
        ("$s<t> /= t a = $s", 4, 15),
        ("$s<t> /= t a = $s<int>", 0, 0),
        ("$s /= int $s<t> /= t", 4, 10),
        // No name of the prelude is a group.
        ("a = &int", 5, 5),
        ("a = &float", 5, 5),
        ("a = &$s", 5, 5),
    ] {
        assert_eq!(rt; fault_of(rt.alloc(), text)?, (rule, place), "{text}");
    }
    Ok(())
}

/// Types, a group, a socket with two plugs, and a name with a parameter and two bodies.
const SCHEMA: &str =
    "a = [$s, g, b<int>] $s /= int $s /= tstr g = (int, int) b<t> = (t) b<u> /= [u]";

#[test]
fn names_are_told(rt: HostRuntime) -> Result<(), Fail> {
    let names = names_of(rt.alloc(), SCHEMA)?;
    let told = |group, params, bodies| {
        Some(NameInfo {
            group,
            params,
            bodies,
        })
    };
    for (name, info, in_text) in [
        ("a", told(false, 0, 1), true),
        ("$s", told(false, 0, 2), true),
        ("g", told(true, 0, 1), true),
        ("b", told(false, 1, 2), true),
        ("int", told(false, 0, 1), false),
        ("float", told(false, 0, 0), false),
        ("t", None, false),
        ("$t", None, false),
    ] {
        assert_eq!(rt; names.lookup(name), info, "{name}");
        assert_eq!(rt; names.in_text(name), in_text, "{name}");
    }
    Ok(())
}

#[test]
fn bodies_are_told(rt: HostRuntime) -> Result<(), Fail> {
    let names = names_of(rt.alloc(), SCHEMA)?;
    assert_eq!(rt; names.plugs("$s"), 2);
    assert_eq!(rt; names.plugs("$t"), 0);
    assert_eq!(rt; names.rules().len(), 6);
    for (name, index, place) in [
        ("$s", 0, 20),
        ("$s", 1, 30),
        ("g", 0, 41),
        ("b", 1, 67),
        ("int", 0, 0),
    ] {
        assert!(rt; index < names.plugs(name), "{name}");
        if index < names.plugs(name) {
            assert_eq!(rt; names.body(name, index).name.at, place, "{name}");
        }
    }
    Ok(())
}

#[test]
fn bodies_add_up_and_decide_the_kind(rt: HostRuntime) -> Result<(), Fail> {
    for (text, name, group, bodies) in [
        ("a = $s $s /= int $s /= tstr", "$s", false, 2),
        ("a /= int a /= tstr", "a", false, 2),
        ("a = (int)", "a", false, 1),
        ("a = (int, int)", "a", true, 1),
    ] {
        let names = names_of(rt.alloc(), text)?;
        let info = NameInfo {
            group,
            params: 0,
            bodies,
        };
        assert_eq!(rt; names.lookup(name), Some(info), "{text}");
        assert_eq!(rt; names.plugs("$t"), 0, "{text}");
    }
    Ok(())
}

/// `a0 = [a1]`, `a1 = [a2]` and so on, and the last is an integer.
fn chain(alloc: Global, count: u32) -> Result<Vec<u8>, Fail> {
    let mut text = Vec::new(alloc);
    for number in 0..count {
        let rule = format!(in alloc; "a{} = [a{}]\n", number, number as u64 + 1)?;
        text.extend_from_slice(rule.as_bytes())?;
    }
    let last = format!(in alloc; "a{count} = int")?;
    text.extend_from_slice(last.as_bytes())?;
    Ok(text)
}

#[test]
fn a_chain_of_names_is_resolved(rt: HostRuntime) -> Result<(), Fail> {
    let text = chain(rt.alloc(), 5000)?;
    let text = std::str::from_utf8(&text).ok().ok_or("no text")?;
    let names = names_of(rt.alloc(), text)?;
    assert_eq!(rt; names.plugs("a0"), 1);
    assert_eq!(rt; names.rules().len(), 5001);
    Ok(())
}

/// `b` with so many parameters, and `a` gives it as many arguments.
fn with_parameters(alloc: Global, count: u32) -> Result<Vec<u8>, Fail> {
    let mut text = Vec::new(alloc);
    text.extend_from_slice(b"b<p0")?;
    for number in 1..count {
        let param = format!(in alloc; ", p{number}")?;
        text.extend_from_slice(param.as_bytes())?;
    }
    text.extend_from_slice(b"> = [p0]\na = b<int")?;
    for _ in 1..count {
        text.extend_from_slice(b", int")?;
    }
    text.extend_from_slice(b">")?;
    Ok(text)
}

/// `a` has so many arguments of `b` inside each other.
fn with_arguments_inside(alloc: Global, levels: u32) -> Result<Vec<u8>, Fail> {
    let mut text = Vec::new(alloc);
    text.extend_from_slice(b"b<t> = [t]\na = ")?;
    for _ in 0..levels {
        text.extend_from_slice(b"b<")?;
    }
    text.extend_from_slice(b"int")?;
    for _ in 0..levels {
        text.extend_from_slice(b">")?;
    }
    Ok(text)
}

#[test]
fn many_parameters_and_deep_arguments_are_resolved(rt: HostRuntime) -> Result<(), Fail> {
    let texts = [
        with_parameters(rt.alloc(), 2000)?,
        with_arguments_inside(rt.alloc(), 249)?,
    ];
    for text in texts.iter() {
        let text = std::str::from_utf8(text).ok().ok_or("no text")?;
        assert_eq!(rt; fault_of(rt.alloc(), text)?, (0, 0));
    }
    Ok(())
}

#[test]
fn faults_are_told_in_words(rt: HostRuntime) -> Result<(), Fail> {
    let told = format!(in rt.alloc(); "{}", NameFault::At { place: 4, rule: 2 })?;
    assert_eq!(rt; told.as_str(), "rule N2 at byte 4");
    let told = format!(in rt.alloc(); "{}", NameFault::OutOfMemory)?;
    assert_eq!(rt; told.as_str(), "out of memory");
    Ok(())
}
