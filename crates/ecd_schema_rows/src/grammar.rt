//! Schemas whose tokens are single characters, and their trees as text: a place behind each letter.

use ecd_lex::{Bound, ByteList, MOST_BYTES, Sign, Token, TokenKind, TokenList, lex};
use ecd_parse::{ParseFault, parse};
use ecd_syntax::{
    Alts, Assign, Entry, Form, GroupTree, Key, Literal, Name, Occur, OpKind, Rule, Tree, Type1,
    Type2,
};
use std::alloc::{AllocError, Global};
use std::test::Fail;

fn sign_of(mark: u8) -> Option<Sign> {
    Some(match mark {
        b'=' => Sign::Define,
        b'M' => Sign::TypeMore,
        b'G' => Sign::GroupMore,
        b'/' => Sign::Slash,
        b'|' => Sign::DoubleSlash,
        b'.' => Sign::RangeClosed,
        b'-' => Sign::RangeHalf,
        b'A' => Sign::Arrow,
        b'^' => Sign::Caret,
        b':' => Sign::Colon,
        b',' => Sign::Comma,
        b'<' => Sign::Less,
        b'>' => Sign::Greater,
        b'(' => Sign::OpenParen,
        b')' => Sign::CloseParen,
        b'[' => Sign::OpenBracket,
        b']' => Sign::CloseBracket,
        b'{' => Sign::OpenBrace,
        b'}' => Sign::CloseBrace,
        b'~' => Sign::Tilde,
        b'&' => Sign::Ampersand,
        _ => return None,
    })
}

fn kind_of(alloc: Global, mark: u8) -> Result<Option<TokenKind>, Fail> {
    if let Some(sign) = sign_of(mark) {
        return Ok(Some(TokenKind::Sign(sign)));
    }
    let text = ByteList::from_slice(alloc, &[mark])?;
    Ok(match mark {
        b'a'..=b'z' => Some(TokenKind::Name(text)),
        b'0'..=b'9' => Some(TokenKind::Int(Some(mark as i128))),
        b'F' => Some(TokenKind::Float),
        b'T' => Some(TokenKind::Text(text)),
        b'B' => Some(TokenKind::Bytes(text)),
        b'C' => Some(TokenKind::Control(text)),
        b'?' => Some(TokenKind::Occur {
            lo: Bound::Is(0),
            hi: Bound::Is(1),
        }),
        b'#' => Some(TokenKind::Hash {
            major: None,
            arg: Bound::Missing,
        }),
        b'S' => Some(TokenKind::Hash {
            major: Some(6),
            arg: Bound::Is(9),
        }),
        _ => None,
    })
}

/// A token for each character. What is no mark, as a space, is white space.
fn tokens_of(alloc: Global, text: &str) -> Result<TokenList, Fail> {
    let mut tokens = TokenList::new(alloc);
    let mut glued = false;
    let mut at = 0u32;
    for &mark in text.as_bytes() {
        let end = at.wrapping_add(1);
        match kind_of(alloc, mark)? {
            Some(kind) => {
                tokens.push(Token {
                    at,
                    end,
                    glued,
                    kind,
                })?;
                glued = true;
            }
            None => glued = false,
        }
        at = end;
    }
    Ok(tokens)
}

/// Text that grows.
#[derive(Drop)]
struct Output {
    alloc: Global,
    text: Vec<u8>,
}

impl Output {
    fn put(&mut self, word: &str) -> Result<(), AllocError> {
        self.text.extend_from_slice(word.as_bytes())
    }

    fn at(&mut self, place: u32) -> Result<(), AllocError> {
        let digits = format!(in self.alloc; "{place}")?;
        self.put(digits.as_str())
    }

    fn name(&mut self, name: &Name) -> Result<(), AllocError> {
        self.text.extend_from_slice(name.text.as_slice())?;
        self.at(name.at)
    }

    fn literal(&mut self, literal: &Literal) -> Result<(), AllocError> {
        self.put(match literal {
            Literal::Int(Some(_)) => "int",
            Literal::Int(None) => "huge",
            Literal::Float => "float",
            Literal::Text(_) => "text",
            Literal::Bytes(_) => "bytes",
        })
    }

    fn rule(&mut self, rule: &Rule) -> Result<(), AllocError> {
        self.at(rule.at)?;
        self.put(" ")?;
        self.name(&rule.name)?;
        for param in rule.params.as_slice() {
            self.put(" ")?;
            self.name(param)?;
        }
        self.put(match rule.assign {
            Assign::Define => " = ",
            Assign::TypeMore => " /= ",
            Assign::GroupMore => " //= ",
        })?;
        self.entry(&rule.body)
    }

    fn occur(&mut self, occur: &Option<Occur>) -> Result<(), AllocError> {
        match occur {
            Some(_) => self.put("?"),
            None => Ok(()),
        }
    }

    #[cycle(output)]
    fn entry(&mut self, entry: &Entry) -> Result<(), AllocError> {
        self.put("e")?;
        self.at(entry.at)?;
        self.occur(&entry.occur)?;
        match &entry.key {
            Key::Missing => {}
            Key::Arrow { of, cut } => {
                self.put("{")?;
                self.choice(of)?;
                self.put(if *cut { "^=>}" } else { "=>}" })?;
            }
            Key::Word(name) => {
                self.put("{")?;
                self.name(name)?;
                self.put(":}")?;
            }
            Key::Lit { at, of } => {
                self.put("{")?;
                self.literal(of)?;
                self.at(*at)?;
                self.put(":}")?;
            }
        }
        self.alts(&entry.body)
    }

    #[cycle(output)]
    fn alts(&mut self, alts: &Alts) -> Result<(), AllocError> {
        self.put("a")?;
        self.at(alts.at)?;
        for choice in alts.choices.as_slice() {
            self.choice(choice)?;
        }
        Ok(())
    }

    #[cycle(output)]
    fn choice(&mut self, choice: &Type1) -> Result<(), AllocError> {
        self.put("t")?;
        self.at(choice.at)?;
        self.operand(&choice.left)?;
        if let Some(op) = &choice.op {
            match &op.kind {
                OpKind::RangeClosed => self.put(" .. ")?,
                OpKind::RangeHalf => self.put(" ... ")?,
                OpKind::Control(name) => {
                    self.put(" .")?;
                    self.name(name)?;
                    self.put(" ")?;
                }
            }
            self.at(op.at)?;
            self.operand(&op.right)?;
        }
        Ok(())
    }

    #[cycle(output)]
    fn operand(&mut self, operand: &Type2) -> Result<(), AllocError> {
        self.put("o")?;
        self.at(operand.at)?;
        match &operand.form {
            Form::Lit(literal) => self.literal(literal),
            Form::Named { name, args } => self.named("", name, args.as_slice()),
            Form::Paren(group) => self.group("()", group),
            Form::MapOf(group) => self.group("{}", group),
            Form::ArrayOf(group) => self.group("[]", group),
            Form::Unwrap { name, args } => self.named("~", name, args.as_slice()),
            Form::Enum(group) => self.group("&()", group),
            Form::EnumName { name, args } => self.named("&", name, args.as_slice()),
            Form::Tagged { number, body } => {
                self.put(if *number == Bound::Is(9) {
                    "#6.9("
                } else {
                    "#6("
                })?;
                self.alts(body)?;
                self.put(")")
            }
            Form::Hash { major, .. } => self.put(if *major == Some(6) { "#6" } else { "#" }),
        }
    }

    #[cycle(output)]
    fn named(&mut self, before: &str, name: &Name, args: &[Type1]) -> Result<(), AllocError> {
        self.put(before)?;
        self.name(name)?;
        for arg in args {
            self.put("<")?;
            self.choice(arg)?;
            self.put(">")?;
        }
        Ok(())
    }

    #[cycle(output)]
    fn group(&mut self, brackets: &str, group: &GroupTree) -> Result<(), AllocError> {
        self.put(brackets)?;
        self.at(group.at)?;
        for way in group.ways.as_slice() {
            self.put("|")?;
            self.at(way.at)?;
            for entry in way.entries.as_slice() {
                self.put(" ")?;
                self.entry(entry)?;
            }
        }
        self.put("|")
    }
}

fn shown(alloc: Global, tree: &Tree) -> Result<Vec<u8>, AllocError> {
    let mut output = Output {
        alloc,
        text: Vec::new(alloc),
    };
    for rule in tree.rules.as_slice() {
        output.rule(rule)?;
        output.put(";")?;
    }
    Ok(output.text)
}

#[test]
fn every_production_has_its_tree(rt: HostRuntime) -> Result<(), Fail> {
    for (text, want) in [
        ("a=b", "0 a0 = e2a2t2o2b2;"),
        (
            "a<x,y>=b<c,1>/T",
            "0 a0 x2 y4 = e7a7t7o7b7<t9o9c9><t11o11int>t14o14text;",
        ),
        (
            "aM1.2/FC3",
            "0 a0 /= e2a2t2o2int .. 3o4intt6o6float .C7 7o8int;",
        ),
        ("aG?b:c", "0 a0 //= e2?{b3:}a5t5o5c5;"),
        ("a=1-B", "0 a0 = e2a2t2o2int ... 3o4bytes;"),
        ("a=[b,c|]", "0 a0 = e2a2t2o2[]3|3 e3a3t3o3b3 e5a5t5o5c5|7|;"),
        ("a={}", "0 a0 = e2a2t2o2{}3|3|;"),
        (
            "a={1:b,c^Ad?TAe}",
            "0 a0 = e2a2t2o2{}3|3 e3{int3:}a5t5o5b5 e7{t7o7c7^=>}a10t10o10d10 e11?{t12o12text=>}a14t14o14e14|;",
        ),
        (
            "a=(~b&c&(d)#)",
            "0 a0 = e2a2t2o2()3|3 e3a3t3o3~b4 e5a5t5o5&c6 e7a7t7o7&()9|9 e9a9t9o9d9| e11a11t11o11#|;",
        ),
        (
            "a=[S(b)S (c)]",
            "0 a0 = e2a2t2o2[]3|3 e3a3t3o3#6.9(a5t5o5b5) e7a7t7o7#6 e9a9t9o9()10|10 e10a10t10o10c10||;",
        ),
        ("a=b c=d", "0 a0 = e2a2t2o2b2;4 c4 = e6a6t6o6d6;"),
        ("a=b<c>d=e", "0 a0 = e2a2t2o2b2<t4o4c4>;6 d6 = e8a8t8o8e8;"),
    ] {
        let tokens = tokens_of(rt.alloc(), text)?;
        match parse(rt.alloc(), &tokens, 99) {
            Ok(tree) => {
                let shown = shown(rt.alloc(), &tree)?;
                assert_eq!(rt; shown.as_slice(), want.as_bytes(), "{text}");
            }
            Err(fault) => assert!(rt; false, "{text}: {fault}"),
        }
    }
    Ok(())
}

#[test]
fn the_first_unexpected_token_is_named(rt: HostRuntime) -> Result<(), Fail> {
    for (text, place) in [
        ("", 99),
        ("a=[b", 99),
        ("a", 99),
        ("=a", 0),
        ("a=b=", 3),
        ("a=b c:d", 5),
        ("a=b^c", 4),
        ("a=b,", 3),
        ("a=[b)", 4),
        ("a=[,b]", 3),
        ("a=S (b)", 4),
        ("a=&1", 3),
        ("a<>=b", 2),
        ("aM?b", 2),
        ("a=[b/c:d]", 6),
    ] {
        let tokens = tokens_of(rt.alloc(), text)?;
        let fault = parse(rt.alloc(), &tokens, 99).err();
        assert_eq!(rt; fault, Some(ParseFault::Unexpected { place }), "{text}");
    }
    Ok(())
}

/// `a = ` and so many of a word, then so many of another.
fn nested(
    alloc: Global,
    count: u16,
    word: &str,
    middle: &str,
    other: &str,
) -> Result<TokenList, Fail> {
    let mut text = String::new(alloc);
    text.push_str("a = ")?;
    for _ in 0..count {
        text.push_str(word)?;
    }
    text.push_str(middle)?;
    for _ in 0..count {
        text.push_str(other)?;
    }
    tokens_of(alloc, text.as_str())
}

#[test]
fn the_forty_ninth_bracket_is_one_too_many(rt: HostRuntime) -> Result<(), Fail> {
    for (count, middle, fault) in [
        (48, "b", None),
        (48, "=", Some(ParseFault::Unexpected { place: 52 })),
        (49, "b", Some(ParseFault::TooNested { place: 52 })),
        (49, "=", Some(ParseFault::TooNested { place: 52 })),
    ] {
        let tokens = nested(rt.alloc(), count, "[", middle, "]")?;
        assert_eq!(rt; parse(rt.alloc(), &tokens, 999).err(), fault, "{count}");
    }
    Ok(())
}

#[test]
fn arguments_end_the_memory_of_the_stack_behind_the_most_levels(
    rt: HostRuntime,
) -> Result<(), Fail> {
    for (count, fault) in [(249, None), (250, Some(ParseFault::OutOfMemory))] {
        let tokens = nested(rt.alloc(), count, "b<", "c", ">")?;
        assert_eq!(rt; parse(rt.alloc(), &tokens, 9999).err(), fault, "{count}");
    }
    Ok(())
}

#[test]
fn texts_are_read_or_refused_at_their_places(rt: HostRuntime) -> Result<(), Fail> {
    for (text, place) in [
        ("", Some(0)),
        ("a = [int]", None),
        ("a = [int", Some(8)),
        ("a = b c = d", None),
        ("a = b <int>", None),
        ("a = #6(int)", None),
        ("a = [#6(int, int)]", Some(11)),
        ("a = [#6 (int, int)]", None),
        ("a = #7(int)", Some(6)),
    ] {
        if text.len() > MOST_BYTES {
            return Err("too long".into());
        }
        let tokens = lex(rt.alloc(), text).ok().ok_or("a fault of lexemes")?;
        let fault = parse(rt.alloc(), &tokens, text.len() as u32).err();
        assert_eq!(rt;
            fault,
            place.map(|place| ParseFault::Unexpected { place }),
            "{text}"
        );
    }
    Ok(())
}

#[test]
fn faults_are_told_in_words(rt: HostRuntime) -> Result<(), Fail> {
    for (fault, words) in [
        (
            ParseFault::Unexpected { place: 8 },
            "unexpected token at byte 8",
        ),
        (
            ParseFault::TooNested { place: 52 },
            "too many open brackets at byte 52",
        ),
        (ParseFault::OutOfMemory, "out of memory"),
    ] {
        let text = format!(in rt.alloc(); "{fault}")?;
        assert_eq!(rt; text.as_str(), words);
    }
    Ok(())
}
