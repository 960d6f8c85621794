use ecd_list::{ByteList, List};

/// A lexeme of a schema and the place where it stands.
#[derive(Debug, Drop)]
pub struct Token {
    /// The place of the first byte, from 0.
    pub at: u32,
    /// The place behind the last byte.
    pub end: u32,
    /// Whether the token begins where the one before it ends.
    pub glued: bool,
    /// What the lexeme is, with its value.
    pub kind: TokenKind,
}

/// The lexemes of a schema, from left to right.
pub type TokenList = List<Token>;

/// What a lexeme is, with its value.
#[derive(Debug, Drop)]
pub enum TokenKind {
    /// A name (`id` of RFC 8610, Appendix B), as its bytes.
    Name(ByteList),
    /// An integer. `None` where it is outside -2^64 to 2^64-1.
    Int(Option<i128>),
    /// A number with a fraction or an exponent. It has no value here.
    Float,
    /// An occurrence indicator (RFC 8610, section 3.2). `?` is 0 and 1, `+` is 1 and `Missing`, and `*` has the
    /// numbers before and after it.
    Occur { lo: Bound, hi: Bound },
    /// A text in quotes, as the UTF-8 of its characters, escapes decoded.
    Text(ByteList),
    /// A byte string in plain quotes or in hexadecimal, as its bytes.
    Bytes(ByteList),
    /// A data item by its major type (RFC 8610, sections 2.2.3 and 3.6): `#`, `#6`, `#6.32`.
    Hash { major: Option<u8>, arg: Bound },
    /// A control operator (RFC 8610, section 3.8), as the bytes of the name behind its dot.
    Control(ByteList),
    /// A sign.
    Sign(Sign),
}

/// A number that may be missing, or pass 64 bits.
#[derive(Clone, Copy, PartialEq, Eq, Debug)]
pub enum Bound {
    /// There is no number.
    Missing,
    /// The number.
    Is(u64),
    /// A number of 2^64 or more.
    Huge,
}

/// The signs of the grammar (RFC 8610, Appendix B).
#[derive(Clone, Copy, PartialEq, Eq, Debug)]
pub enum Sign {
    /// `=`
    Define,
    /// `/=`
    TypeMore,
    /// `//=`
    GroupMore,
    /// `/`
    Slash,
    /// `//`
    DoubleSlash,
    /// `..`
    RangeClosed,
    /// `...`
    RangeHalf,
    /// `=>`
    Arrow,
    /// `^`
    Caret,
    /// `:`
    Colon,
    /// `,`
    Comma,
    /// `<`
    Less,
    /// `>`
    Greater,
    /// `(`
    OpenParen,
    /// `)`
    CloseParen,
    /// `[`
    OpenBracket,
    /// `]`
    CloseBracket,
    /// `{`
    OpenBrace,
    /// `}`
    CloseBrace,
    /// `~`
    Tilde,
    /// `&`
    Ampersand,
}
