//! Texts that are read, texts that are no spelling, and texts whose programs break a rule.

use crate::texts::{FIRST, joined, read};
use ecd_cprint::print;
use ecd_cread::{CFault, MOST_BYTES, read_c};
use std::alloc::Global;
use std::test::Fail;

const GOOD: &str = "enum { call_depth = 1 };
struct s0 { uint64_t v; };
uint64_t read_0(const uint8_t *buf, uint64_t len, struct s0 *out) {
  uint64_t n = 0ull;
  uint64_t x = (uint64_t)buf[n];
  out->v = x;
  return 1ull;
}
";

const EVERY_FORM: &str = "#include <stdint.h>
enum { call_depth = 2 };
struct s0 { uint64_t v; const uint8_t *p; };
uint64_t add(uint64_t a, uint64_t b) { return (a + b); }
uint64_t all(const uint8_t *buf, uint64_t len, uint8_t *out, struct s0 *s) {
  uint64_t n = 0ull;
  uint64_t m = add(n, 18446744073709551615ull);
  const uint8_t *q = (buf + 1ull);
  n = add(m, len);
  n = (m - 2ull);
  n = ((((m * n) << 1ull) >> 2ull) & (n | 7ull));
  q = buf;
  out[n] = (uint8_t)(uint64_t)buf[(n + 1ull)];
  s->v = n;
  s->p = q;
  m = s->v;
  if (((n == m) && (!(n != m))) || ((n <= m) && ((n > m) || (n >= m)))) {
    for (uint64_t i = 0ull; i < len; i += 1ull) { out[i] = (uint8_t)i; }
  } else { return 1ull; }
  if (n < m) { } else { }
  return n;
}";

/// The head of a file with one function, up to its first statement.
const HEAD: &str = "enum { call_depth = 1 };\nuint64_t f(uint64_t a) { ";

/// A file with a first word, so many of a word, a middle, so many of another word, and an end.
fn nested(
    alloc: Global,
    first: &str,
    count: u16,
    word: &str,
    middle: &str,
    other: &str,
    end: &str,
) -> Result<String, Fail> {
    let mut text = joined(alloc, &[FIRST, HEAD, first])?;
    for _ in 0..count {
        text.push_str(word)?;
    }
    text.push_str(middle)?;
    for _ in 0..count {
        text.push_str(other)?;
    }
    text.push_str(end)?;
    Ok(text)
}

#[test]
fn a_file_is_read(rt: HostRuntime) -> Result<(), Fail> {
    let text = joined(rt.alloc(), &[FIRST, GOOD])?;
    let valid = read(rt.alloc(), text.as_str())?;
    assert_eq!(rt; valid.program().items.len(), 2);
    assert_eq!(rt; valid.call_depth(), 1);
    let empty = read(rt.alloc(), "#include <stdint.h>\nenum{call_depth=0};")?;
    assert_eq!(rt; empty.program().items.len(), 0);
    Ok(())
}

#[test]
fn every_form_is_printed_and_read_again(rt: HostRuntime) -> Result<(), Fail> {
    let valid = read(rt.alloc(), EVERY_FORM)?;
    let text = print(rt.alloc(), &valid)?;
    if text.len() > MOST_BYTES {
        return Err("too long".into());
    }
    let again = read_c(rt.alloc(), text.as_slice())?;
    let other = print(rt.alloc(), &again)?;
    assert_eq!(rt; text.as_slice(), other.as_slice());
    Ok(())
}

#[test]
fn a_text_without_the_first_line_is_at_fault_at_its_begin(rt: HostRuntime) -> Result<(), Fail> {
    for text in [
        "",
        " #include <stdint.h>\nenum { call_depth = 0 };",
        "#include <stdint.h>",
        "#include <stddef.h>\nenum { call_depth = 0 };",
    ] {
        let fault = read(rt.alloc(), text).err();
        assert_eq!(rt; fault, Some(CFault::Text { place: 0 }), "{text}");
    }
    Ok(())
}

/// The fault of a text behind the first line is where its second part begins.
fn is_at_second(alloc: Global, before: &str, rest: &str) -> Result<bool, Fail> {
    let text = joined(alloc, &[FIRST, before, rest])?;
    Ok(match read(alloc, text.as_str()) {
        Err(CFault::Text { place }) => (place as usize).wrapping_add(rest.len()) == text.len(),
        _ => false,
    })
}

#[test]
fn a_file_is_at_fault_at_the_first_lexeme_that_no_spelling_has_there(
    rt: HostRuntime,
) -> Result<(), Fail> {
    for (before, rest) in [
        ("", ""),
        ("enum { call_depth = 0", "1 };"),
        ("enum { call_depth = ", "4294967296 };"),
        ("enum { call_depth = ", "1ull };"),
        ("enum { call_depth = 1 }", ""),
        ("enum { call_depth = 1 } \n", ""),
        ("enum { call_depth = 0 };", "@"),
        ("enum { call_depth = 0 };\n", "\tstruct s { uint64_t v; };"),
        ("enum { call_depth = 0 };\n", "/"),
        ("enum { call_depth = 0 };\nstruct s { ", "};"),
        ("enum { call_depth = 0 };\nuint64_t f(", ") { }"),
    ] {
        assert!(rt; is_at_second(rt.alloc(), before, rest)?, "{before}");
    }
    Ok(())
}

#[test]
fn a_statement_is_at_fault_at_the_first_lexeme_that_no_spelling_has_there(
    rt: HostRuntime,
) -> Result<(), Fail> {
    for (before, rest) in [
        ("if ((a < a)", ") { } else { } return a; }"),
        ("if (a < a) { } ", "return a; }"),
        (
            "for (uint64_t i = 0ull; ",
            "j < a; i += 1ull) { } return a; }",
        ),
        (
            "for (uint64_t i = 0ull; i < a; ",
            "j += 1ull) { } return a; }",
        ),
        (
            "for (uint64_t i = ",
            "1ull; i < a; i += 1ull) { } return a; }",
        ),
        ("uint64_t n = ", "18446744073709551616ull; return n; }"),
        ("uint64_t n = ", "1u; return n; }"),
        ("uint64_t n = ", "01ull; return n; }"),
        ("uint64_t ", "else = a; return a; }"),
        ("return (a < ", "= a); }"),
        ("return (a ", "= a); }"),
        ("return a", "}"),
        ("return f", "(a); }"),
        ("a = f(", "); return a; }"),
        ("a ", "+= 1ull; return a; }"),
        ("return a; }", "}"),
    ] {
        let front = joined(rt.alloc(), &[HEAD, before])?;
        assert!(rt; is_at_second(rt.alloc(), front.as_str(), rest)?, "{before}");
    }
    Ok(())
}

#[test]
fn a_byte_that_begins_no_lexeme_is_at_fault_where_nothing_before_it_is(
    rt: HostRuntime,
) -> Result<(), Fail> {
    let front = joined(rt.alloc(), &[HEAD, "return (a + "])?;
    assert!(rt; is_at_second(rt.alloc(), front.as_str(), "#a); }")?);
    let front = joined(rt.alloc(), &[HEAD, "return "])?;
    assert!(rt; is_at_second(rt.alloc(), front.as_str(), "+ #a; }")?);
    let front = joined(rt.alloc(), &[HEAD, "return a; } "])?;
    assert!(rt; is_at_second(rt.alloc(), front.as_str(), "\r\n")?);
    Ok(())
}

#[test]
fn a_broken_rule_is_named_with_its_place(rt: HostRuntime) -> Result<(), Fail> {
    for (old, new, rule, item, statement) in [
        ("return 1ull;", "", 5, 1, 0),
        ("call_depth = 1", "call_depth = 2", 7, 0, 0),
        ("n = 0ull", "n = q", 1, 1, 1),
        ("n = 0ull", "n = buf", 2, 1, 1),
        ("out->v = x", "len = read_0(buf, len, out)", 3, 1, 3),
        ("uint64_t x", "uint64_t n", 6, 1, 2),
    ] {
        let (front, behind) = GOOD.split_once(old).ok_or("it is not there")?;
        let text = joined(rt.alloc(), &[FIRST, front, new, behind])?;
        let fault = read(rt.alloc(), text.as_str()).err();
        let named = CFault::Rule {
            rule,
            item,
            statement,
        };
        assert_eq!(rt; fault, Some(named), "{new}");
    }
    Ok(())
}

#[test]
fn what_stands_too_deep_ends_the_memory_of_the_stack(rt: HostRuntime) -> Result<(), Fail> {
    for (count, fault) in [(200, None), (5000, Some(CFault::OutOfMemory))] {
        let choices = nested(
            rt.alloc(),
            "",
            count,
            "if (a < a) { ",
            "",
            "} else { }",
            "return a; }",
        )?;
        assert_eq!(rt; read(rt.alloc(), choices.as_str()).err(), fault, "{count}");
        let sums = nested(rt.alloc(), "return ", count, "(a + ", "a", ")", "; }")?;
        assert_eq!(rt; read(rt.alloc(), sums.as_str()).err(), fault, "{count}");
    }
    Ok(())
}
