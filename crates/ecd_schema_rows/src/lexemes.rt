ghost use Rattle.std.specs.Prelude.{◌≤◌, length};

use ecd_lex::{Bound, LexFault, MOST_BYTES, Token, TokenKind, laws, lex, line_column};
use std::alloc::{AllocError, Global};
use std::test::Fail;

fn push_text(shown: &mut String, bytes: &[u8]) -> Result<(), AllocError> {
    match std::str::from_utf8(bytes) {
        Ok(text) => shown.push_str(text),
        Err(_) => shown.push_str("no text"),
    }
}

fn push_bound(shown: &mut String, bound: Bound) -> Result<(), AllocError> {
    match bound {
        Bound::Missing => shown.push_str("_"),
        Bound::Is(number) => write!(shown, "{number}"),
        Bound::Huge => shown.push_str("huge"),
    }
}

fn push_kind(shown: &mut String, kind: &TokenKind) -> Result<(), AllocError> {
    match kind {
        TokenKind::Name(name) => push_text(shown, name.as_slice()),
        TokenKind::Int(Some(value)) => write!(shown, "{value}"),
        TokenKind::Int(None) => shown.push_str("none"),
        TokenKind::Float => shown.push_str("float"),
        TokenKind::Occur { lo, hi } => {
            push_bound(shown, *lo)?;
            shown.push_str("*")?;
            push_bound(shown, *hi)
        }
        TokenKind::Text(chars) => {
            shown.push_str("t:")?;
            push_text(shown, chars.as_slice())
        }
        TokenKind::Bytes(bytes) => write!(shown, "{:?}", bytes.as_slice()),
        TokenKind::Hash { major, arg } => {
            shown.push_str("#")?;
            if let Some(major) = major {
                write!(shown, "{major}")?;
            }
            shown.push_str(".")?;
            push_bound(shown, *arg)
        }
        TokenKind::Control(name) => {
            shown.push_str("c:")?;
            push_text(shown, name.as_slice())
        }
        TokenKind::Sign(sign) => write!(shown, "{sign:?}"),
    }
}

/// The tokens by value and places, a bar before each that is not glued, or the rule and its place.
fn shown(alloc: Global, text: &str) -> Result<String, AllocError>
    requires { length text.now ≤ MOST_BYTES }
{
    let mut shown = String::new(alloc);
    match lex(alloc, text) {
        Err(LexFault::At { place, rule }) => write!(&mut shown, "X{rule} at {place}")?,
        Err(LexFault::OutOfMemory) => shown.push_str("out of memory")?,
        Ok(tokens) => {
            for token in tokens.as_slice() {
                push_token(&mut shown, token)?;
            }
        }
    }
    Ok(shown)
}

fn push_token(shown: &mut String, token: &Token) -> Result<(), AllocError> {
    let at = token.at;
    let end = token.end;
    shown.push_str(if token.glued { "" } else { "|" })?;
    write!(shown, "{at}-{end} ")?;
    push_kind(shown, &token.kind)?;
    shown.push_str(" ")
}

#[test]
fn each_rule_stands_at_its_place(rt: HostRuntime) -> Result<(), Fail> {
    for (text, want) in [
        ("a = %", "X1 at 4"),
        ("a = \u{e9}", "X1 at 4"),
        ("a = 1\rb", "X1 at 5"),
        ("a = -b", "X1 at 4"),
        ("0x1.8", "X1 at 3"),
        ("a . b", "X1 at 2"),
        ("a = \"x", "X2 at 4"),
        ("a = 'x\n'", "X2 at 4"),
        ("a = \"\\x", "X2 at 4"),
        ("a = \"\\\n\"", "X2 at 4"),
        ("a = h'1", "X2 at 5"),
        ("a = h'g\r'", "X2 at 5"),
        ("a = \"\\x\"", "X3 at 5"),
        ("a = \"\\n\\\" \\'\"", "X3 at 10"),
        ("a = \"\\ud800\"", "X3 at 5"),
        ("a = \"\\u12\"", "X3 at 5"),
        ("a = 012", "X4 at 4"),
        ("a = -00.5", "X4 at 4"),
        ("0x", "X4 at 0"),
        ("0b2", "X4 at 0"),
        ("1.5a", "X4 at 0"),
        ("1e5e", "X4 at 0"),
        ("5@", "X4 at 0"),
        ("5*012", "X4 at 2"),
        ("*0x", "X4 at 1"),
        ("012*5", "X4 at 0"),
        ("#6.0x", "X4 at 0"),
        ("#66", "X4 at 0"),
        ("#a", "X4 at 0"),
        ("a = h'1'", "X5 at 7"),
        ("a = h'1 g'", "X5 at 8"),
        ("a = h'12;'", "X5 at 8"),
        ("a = b64'AA'", "X6 at 4"),
        ("a = B64'", "X6 at 4"),
        ("a = 012 %", "X4 at 4"),
        ("a = % 012", "X1 at 4"),
    ] {
        assert!(rt; text.len() <= MOST_BYTES);
        assert_eq!(rt; shown(rt.alloc(), text)?.as_str(), want, "at {text}");
    }
    Ok(())
}

#[test]
fn lexemes_are_the_longest(rt: HostRuntime) -> Result<(), Fail> {
    for (text, want) in [
        ("", ""),
        (" \t\r\n; a comment\n;", ""),
        ("a;b", "|0-1 a "),
        ("min..max", "|0-8 min..max "),
        ("a-", "X1 at 1"),
        ("a--b.c $x @_9", "|0-6 a--b.c |7-9 $x |10-13 @_9 "),
        ("a. .b .size.c", "X1 at 1"),
        ("a .size .b-c", "|0-1 a |2-7 c:size |8-12 c:b-c "),
        ("1..2", "|0-1 1 1-3 RangeClosed 3-4 2 "),
        ("1...2", "|0-1 1 1-4 RangeHalf 4-5 2 "),
        ("0x1.a", "|0-3 1 3-5 c:a "),
        ("-5*3", "|0-2 -5 2-4 _*3 "),
        ("1.5*", "|0-3 float 3-4 _*_ "),
        ("#6.1*2", "|0-4 #6.1 4-6 _*2 "),
        ("5*3*2", "|0-3 5*3 3-5 _*2 "),
        ("? + * 0x10*0b11", "|0-1 0*1 |2-3 1*_ |4-5 _*_ |6-15 16*3 "),
        ("# #6 #6.32 #7.", "X1 at 13"),
        ("# #6 #6.32", "|0-1 #._ |2-4 #6._ |5-10 #6.32 "),
        (
            "-0 0 10 0X1f 0B101",
            "|0-2 0 |3-4 0 |5-7 10 |8-12 31 |13-18 5 ",
        ),
        (
            "1.5 -1e5 1E+5 2.5e-1",
            "|0-3 float |4-8 float |9-13 float |14-20 float ",
        ),
        ("0x1p5 -0X1.8P-3", "|0-5 float |6-15 float "),
        ("18446744073709551615", "|0-20 18446744073709551615 "),
        ("18446744073709551616", "|0-20 none "),
        ("-18446744073709551616", "|0-21 -18446744073709551616 "),
        ("-18446744073709551617", "|0-21 none "),
        ("*18446744073709551616", "|0-21 _*huge "),
        (
            "= => / // /= //=",
            "|0-1 Define |2-4 Arrow |5-6 Slash |7-9 DoubleSlash |10-12 TypeMore |13-16 GroupMore ",
        ),
        (
            "^:,<>()",
            "|0-1 Caret 1-2 Colon 2-3 Comma 3-4 Less 4-5 Greater 5-6 OpenParen 6-7 CloseParen ",
        ),
        (
            "[]{}~&",
            "|0-1 OpenBracket 1-2 CloseBracket 2-3 OpenBrace 3-4 CloseBrace 4-5 Tilde 5-6 Ampersand ",
        ),
        ("h H'0aF f' hh", "|0-1 h |2-10 [10, 255] |11-13 hh "),
        ("h'' h'\r\n12'", "|0-3 [] |4-11 [18] "),
    ] {
        assert!(rt; text.len() <= MOST_BYTES);
        assert_eq!(rt; shown(rt.alloc(), text)?.as_str(), want, "at {text}");
    }
    Ok(())
}

#[test]
fn strings_are_decoded(rt: HostRuntime) -> Result<(), Fail> {
    for (text, want) in [
        ("\"\"", "|0-2 t: "),
        ("\"it's\"", "|0-6 t:it's "),
        ("\"\u{7f}\u{e9}\"", "|0-5 t:\u{7f}\u{e9} "),
        ("\"\\\"\\\\\\/\"", "|0-8 t:\"\\/ "),
        ("\"\\u0041\\u00e9\\u20AC\"", "|0-20 t:A\u{e9}\u{20ac} "),
        ("'\\b\\f\\n\\r\\t\\''", "|0-14 [8, 12, 10, 13, 9, 39] "),
        ("'\"\u{e9}'", "|0-5 [34, 195, 169] "),
    ] {
        assert!(rt; text.len() <= MOST_BYTES);
        assert_eq!(rt; shown(rt.alloc(), text)?.as_str(), want, "at {text}");
    }
    Ok(())
}

#[test]
fn the_longest_text_is_read(rt: HostRuntime) -> Result<(), Fail> {
    let mut name = String::new(rt.alloc());
    let mut names = String::new(rt.alloc());
    for _ in 0..MOST_BYTES / 2 {
        name.push_str("aa")?;
        names.push_str("a ")?;
    }
    for (text, count, last) in [(&name, 1, 0), (&names, 131_072, 262_142)] {
        assert_eq!(rt; text.len(), MOST_BYTES);
        let tokens = lex(rt.alloc(), text.as_str()).ok().ok_or("a fault")?;
        assert_eq!(rt; tokens.len(), count);
        let at = tokens.as_slice().last().map_or(1, |token| token.at);
        assert_eq!(rt; at, last);
    }
    Ok(())
}

#[test]
fn faults_are_told_in_words(rt: HostRuntime) -> Result<(), Fail> {
    let fault = LexFault::At { place: 7, rule: 4 };
    let text = format!(in rt.alloc(); "{fault}; {}", LexFault::OutOfMemory)?;
    assert_eq!(rt; text.as_str(), "rule X4 at byte 7; out of memory");
    Ok(())
}

#[test]
fn columns_are_counted_in_bytes(rt: HostRuntime) {
    let text = "ab\n\u{e9}c\r\n\nd".as_bytes();
    assert_eq!(rt; text.len(), 10);
    for (place, want) in [
        (0, (1, 1)),
        (2, (1, 3)),
        (3, (2, 1)),
        (5, (2, 3)),
        (6, (2, 4)),
        (8, (3, 1)),
        (9, (4, 1)),
        (10, (4, 2)),
    ] {
        assert!(rt; place as usize <= text.len());
        assert_eq!(rt; line_column(text, place), want, "at {place}");
    }
}

#[test]
fn laws_hold() {
    laws::one_token_list();
    laws::one_first_fault();
    laws::tokens_or_fault();
}
