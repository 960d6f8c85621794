use ecd_lex::Bound;
use ecd_list::{ByteList, List};

/// A schema (`cddl` of RFC 8610, Appendix B).
#[derive(Drop)]
pub struct Tree {
    /// The rules, one or more.
    pub rules: RuleList,
}

/// Rules, in the order of the text.
pub type RuleList = List<Rule>;

/// A rule (RFC 8610, section 3.1): a name, its parameters, and what it stands for.
#[derive(Drop)]
pub struct Rule {
    /// The place of the name.
    pub at: u32,
    /// The name that is defined.
    pub name: Name,
    /// The generic parameters (RFC 8610, section 3.10).
    pub params: NameList,
    /// How the body is assigned.
    pub assign: Assign,
    /// What the name stands for.
    pub body: Entry,
}

/// The three assignments (RFC 8610, sections 3.1, 2.2.2 and 3.9).
#[derive(Clone, Copy, PartialEq, Eq, Debug)]
pub enum Assign {
    /// `=`
    Define,
    /// `/=`
    TypeMore,
    /// `//=`
    GroupMore,
}

/// A name and the place where it stands.
#[derive(Drop)]
pub struct Name {
    /// The place of its first byte.
    pub at: u32,
    /// Its bytes.
    pub text: ByteList,
}

/// Names, in the order of the text.
pub type NameList = List<Name>;

/// A group entry (RFC 8610, section 2.1 and `grpent` of Appendix B).
#[cycle(syntax)]
#[derive(Drop)]
pub struct Entry {
    /// The place of its first token, the occurrence included.
    pub at: u32,
    /// How often it occurs (RFC 8610, section 3.2).
    pub occur: Option<Occur>,
    /// Its key.
    pub key: Key,
    /// Its type, or the group that it stands for.
    pub body: Alts,
}

/// Group entries, in the order of the text.
pub type EntryList = List<Entry>;

/// An occurrence indicator (RFC 8610, section 3.2).
#[derive(Clone, Copy, PartialEq, Eq, Debug)]
pub struct Occur {
    /// The least number.
    pub lo: Bound,
    /// The greatest number.
    pub hi: Bound,
}

/// The key of an entry (`memberkey` of RFC 8610, Appendix B).
#[cycle(syntax)]
#[derive(Drop)]
pub enum Key {
    /// There is none.
    Missing,
    /// A type before `=>`, with a cut where `^` stands between them (RFC 8610, section 3.5.4).
    Arrow { of: Type1, cut: bool },
    /// A name before `:`, which stands for its text.
    Word(Name),
    /// A value before `:`.
    Lit { at: u32, of: Literal },
}

/// A type: one choice or more (`type` of RFC 8610, Appendix B).
#[cycle(syntax)]
#[derive(Drop)]
pub struct Alts {
    /// The place of its first token.
    pub at: u32,
    /// The choices, one or more.
    pub choices: Type1List,
}

/// Choices of a type, or generic arguments, in the order of the text.
pub type Type1List = List<Type1>;

/// A choice of a type (`type1` of RFC 8610, Appendix B).
#[cycle(syntax)]
#[derive(Drop)]
pub struct Type1 {
    /// The place of its first token.
    pub at: u32,
    /// The only operand, or that before the operator.
    pub left: Type2,
    /// The operator and the operand behind it.
    pub op: Option<Operation>,
}

/// An operator and the operand behind it.
#[cycle(syntax)]
#[derive(Drop)]
pub struct Operation {
    /// The place of the operator.
    pub at: u32,
    /// The operator.
    pub kind: OpKind,
    /// The operand behind it.
    pub right: Type2,
}

/// The operators of a type (RFC 8610, sections 2.2.2.1 and 3.8).
#[derive(Drop)]
pub enum OpKind {
    /// `..`
    RangeClosed,
    /// `...`
    RangeHalf,
    /// A control operator. The place is that of its dot, and the text has no dot.
    Control(Name),
}

/// An operand of a type (`type2` of RFC 8610, Appendix B).
#[cycle(syntax)]
#[derive(Drop)]
pub struct Type2 {
    /// The place of its first token.
    pub at: u32,
    /// Which it is.
    pub form: Form,
}

/// The forms of an operand.
#[cycle(syntax)]
#[derive(Drop)]
pub enum Form {
    /// A value.
    Lit(Literal),
    /// A name, with generic arguments.
    Named { name: Name, args: Type1List },
    /// `( )`: a type in parentheses, or a group.
    Paren(GroupTree),
    /// `{ }`
    MapOf(GroupTree),
    /// `[ ]`
    ArrayOf(GroupTree),
    /// `~` and a name (RFC 8610, section 3.7).
    Unwrap { name: Name, args: Type1List },
    /// `&( )` (RFC 8610, section 2.2.2.2)
    Enum(GroupTree),
    /// `&` and a name.
    EnumName { name: Name, args: Type1List },
    /// `#6( )` with or without a number (RFC 8610, section 3.6).
    Tagged { number: Bound, body: Alts },
    /// `#` without parentheses.
    Hash { major: Option<u8>, arg: Bound },
}

/// A group: ways between `//` (`group` of RFC 8610, Appendix B).
#[cycle(syntax)]
#[derive(Drop)]
pub struct GroupTree {
    /// The place of its first token, or of the token behind it where it has none.
    pub at: u32,
    /// The ways, one or more.
    pub ways: WayTreeList,
}

/// Ways, in the order of the text.
pub type WayTreeList = List<WayTree>;

/// A choice of a group (`grpchoice` of RFC 8610, Appendix B).
#[cycle(syntax)]
#[derive(Drop)]
pub struct WayTree {
    /// The place of its first token, or of the token behind it where it has none.
    pub at: u32,
    /// The entries, in order.
    pub entries: EntryList,
}

/// A value in a schema (`value` of RFC 8610, Appendix B).
#[derive(Drop)]
pub enum Literal {
    /// An integer. `None` where it is outside -2^64 to 2^64-1.
    Int(Option<i128>),
    /// A number with a fraction or an exponent.
    Float,
    /// A text, as its UTF-8.
    Text(ByteList),
    /// A byte string.
    Bytes(ByteList),
}
