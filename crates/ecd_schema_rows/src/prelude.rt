//! The text of the prelude, read by the lexer and the parser, beside its rules; and names of floats.

use ecd_lex::{MOST_BYTES, lex};
use ecd_parse::parse;
use ecd_prelude::{is_float_name, prelude};
use ecd_syntax::{Alts, Assign, Entry, Form, GroupTree, Key, Name, Rule, Type1, WayTree};
use std::test::Fail;

/// RFC 8610, Appendix D, without what holds floats.
const TEXT: &str = "any = #
uint = #0
nint = #1
int = uint / nint
bstr = #2
bytes = bstr
tstr = #3
text = tstr
tdate = #6.0(tstr)
biguint = #6.2(bstr)
bignint = #6.3(bstr)
bigint = biguint / bignint
integer = int / bigint
unsigned = uint / biguint
decfrac = #6.4([e10: int, m: integer])
bigfloat = #6.5([e2: int, m: integer])
eb64url = #6.21(any)
eb64legacy = #6.22(any)
eb16 = #6.23(any)
encoded-cbor = #6.24(bstr)
uri = #6.32(tstr)
b64url = #6.33(tstr)
b64legacy = #6.34(tstr)
regexp = #6.35(tstr)
mime-message = #6.36(tstr)
cbor-any = #6.55799(any)
false = #7.20
true = #7.21
bool = false / true
nil = #7.22
null = nil
undefined = #7.23
";

fn is_same_name(a: &Name, b: &Name) -> bool {
    a.text.as_slice() == b.text.as_slice()
}

fn is_same_key(a: &Key, b: &Key) -> bool {
    match (a, b) {
        (Key::Missing, Key::Missing) => true,
        (Key::Word(a), Key::Word(b)) => is_same_name(a, b),
        _ => false,
    }
}

#[cycle(same)]
fn is_same_form(a: &Form, b: &Form) -> bool {
    match (a, b) {
        (Form::Named { name: a, args: x }, Form::Named { name: b, args: y }) => {
            is_same_name(a, b) && x.is_empty() && y.is_empty()
        }
        (Form::ArrayOf(a), Form::ArrayOf(b)) => is_same_group(a, b),
        (Form::Tagged { number: m, body: a }, Form::Tagged { number: n, body: b }) => {
            *m == *n && is_same_type(a, b)
        }
        (Form::Hash { major: m, arg: x }, Form::Hash { major: n, arg: y }) => {
            *m == *n && *x == *y
        }
        _ => false,
    }
}

#[cycle(same)]
fn is_same_choice(a: &Type1, b: &Type1) -> bool {
    a.op.is_none() && b.op.is_none() && is_same_form(&a.left.form, &b.left.form)
}

#[cycle(same)]
fn is_same_type(a: &Alts, b: &Alts) -> bool {
    if a.choices.len() != b.choices.len() {
        return false;
    }
    for (a, b) in a.choices.as_slice().iter().zip(b.choices.as_slice()) {
        if !is_same_choice(a, b) {
            return false;
        }
    }
    true
}

#[cycle(same)]
fn is_same_entry(a: &Entry, b: &Entry) -> bool {
    a.occur == b.occur && is_same_key(&a.key, &b.key) && is_same_type(&a.body, &b.body)
}

#[cycle(same)]
fn is_same_way(a: &WayTree, b: &WayTree) -> bool {
    if a.entries.len() != b.entries.len() {
        return false;
    }
    for (a, b) in a.entries.as_slice().iter().zip(b.entries.as_slice()) {
        if !is_same_entry(a, b) {
            return false;
        }
    }
    true
}

#[cycle(same)]
fn is_same_group(a: &GroupTree, b: &GroupTree) -> bool {
    if a.ways.len() != b.ways.len() {
        return false;
    }
    for (a, b) in a.ways.as_slice().iter().zip(b.ways.as_slice()) {
        if !is_same_way(a, b) {
            return false;
        }
    }
    true
}

fn is_same_rule(a: &Rule, b: &Rule) -> bool {
    is_same_name(&a.name, &b.name)
        && a.params.is_empty()
        && b.params.is_empty()
        && a.assign == Assign::Define
        && b.assign == Assign::Define
        && is_same_entry(&a.body, &b.body)
}

#[test]
fn the_rules_are_those_of_the_text(rt: HostRuntime) -> Result<(), Fail> {
    let rules = prelude(rt.alloc())?;
    if TEXT.len() > MOST_BYTES {
        return Err("too long".into());
    }
    let tokens = lex(rt.alloc(), TEXT).ok().ok_or("a fault of lexemes")?;
    let tree = parse(rt.alloc(), &tokens, TEXT.len() as u32).ok();
    let tree = tree.ok_or("a fault of grammar")?;
    assert_eq!(rt; rules.len(), 32);
    assert_eq!(rt; tree.rules.len(), 32);
    for (rule, want) in rules.as_slice().iter().zip(tree.rules.as_slice()) {
        assert!(rt; is_same_rule(rule, want), "{}", want.name.at);
    }
    Ok(())
}

#[test]
fn names_of_floats_are_told_from_others(rt: HostRuntime) -> Result<(), Fail> {
    for name in [
        "float16",
        "float32",
        "float64",
        "float16-32",
        "float32-64",
        "float",
        "number",
        "time",
    ] {
        assert!(rt; is_float_name(name.as_bytes()), "{name}");
    }
    for name in [
        "",
        "f",
        "floa",
        "float1",
        "float128",
        "float16-",
        "float16-64",
        "Float",
        "numbers",
        "tim",
        "tdate",
        "int",
        "any",
    ] {
        assert!(rt; !is_float_name(name.as_bytes()), "{name}");
    }
    Ok(())
}
