//! The trees of the C subset. `docs/C-SUBSET.md` has their grammar.

use ecd_list::{Boxed, ByteList, List};

/// A name, as its bytes.
pub type Name = ByteList;

pub type ExprList = List<Expr>;

pub type StmtList = List<Stmt>;

pub type ParamList = List<Param>;

pub type CellInfoList = List<CellInfo>;

pub type CItemList = List<CItem>;

/// An operator between two operands, one for each sign of the grammar.
#[derive(Clone, Copy, PartialEq, Eq, Debug)]
pub enum Op {
    /// `+`, modulo 2^64, or a pointer moved forward.
    Add,
    /// `-`, modulo 2^64.
    Sub,
    /// `*`, modulo 2^64.
    Mul,
    /// `<<`, modulo 2^64, by fewer than 64 bits.
    Shl,
    /// `>>`, by fewer than 64 bits.
    Shr,
    /// `&`
    BitAnd,
    /// `|`
    BitOr,
    /// `==`
    Eq,
    /// `!=`
    Ne,
    /// `<`
    Lt,
    /// `<=`
    Le,
    /// `>`
    Gt,
    /// `>=`
    Ge,
    /// `&&`, whose right side counts only where the left one is true.
    And,
    /// `||`, whose right side counts only where the left one is false.
    Or,
}

/// An expression: a number, a truth or a pointer; as an argument, a struct too.
#[derive(Debug, Drop)]
pub enum Expr {
    /// `5ull`
    Number(u64),
    /// `name`, a variable or a parameter.
    Var(Name),
    /// `name->cell`
    Cell(Name, Name),
    /// `(uint64_t)name[index]`, one byte.
    Load(Name, Boxed<Expr>),
    /// `(left op right)`
    Binary(Op, Boxed<Expr>, Boxed<Expr>),
    /// `(!operand)`
    Not(Boxed<Expr>),
}

/// Where a declaration or an assignment takes its value from.
#[derive(Debug, Drop)]
pub enum Source {
    Value(Expr),
    /// `name(args)`, the number that the function returns.
    Call { name: Name, args: ExprList },
}

/// A statement.
#[derive(Debug, Drop)]
pub enum Stmt {
    /// `uint64_t name = from;`
    Number {
        name: Name,
        from: Source,
    },
    /// `const uint8_t *name = from;`
    Pointer {
        name: Name,
        from: Expr,
    },
    /// `name = from;`
    Assign {
        name: Name,
        from: Source,
    },
    /// `name[index] = (uint8_t)from;`
    Store {
        name: Name,
        index: Expr,
        from: Expr,
    },
    /// `name->cell = from;`
    SetCell {
        name: Name,
        cell: Name,
        from: Expr,
    },
    /// `if test { yes } else { no }`
    If {
        test: Expr,
        yes: StmtList,
        no: StmtList,
    },
    /// `for (uint64_t name = 0ull; name < bound; name += 1ull) { body }`
    For {
        name: Name,
        bound: Name,
        body: StmtList,
    },
    /// `return from;`
    Return(Expr),
}

/// What a parameter takes.
#[derive(Debug, Drop)]
pub enum ParamKind {
    /// `uint64_t`
    Number,
    /// `const uint8_t *`
    ReadPointer,
    /// `uint8_t *`
    WritePointer,
    /// `struct NAME *`
    Struct(Name),
}

#[derive(Debug, Drop)]
pub struct Param {
    pub name: Name,
    pub kind: ParamKind,
}

/// A function. It returns a number.
#[derive(Debug, Drop)]
pub struct Function {
    pub name: Name,
    pub params: ParamList,
    pub body: StmtList,
}

/// What a cell of a struct holds.
#[derive(Clone, Copy, PartialEq, Eq, Debug)]
pub enum CellKind {
    /// `uint64_t`
    Number,
    /// `const uint8_t *`
    Pointer,
}

#[derive(Debug, Drop)]
pub struct CellInfo {
    pub name: Name,
    pub kind: CellKind,
}

#[derive(Debug, Drop)]
pub struct StructDecl {
    pub name: Name,
    pub cells: CellInfoList,
}

/// A struct or a function. Items are numbered together from 0, in text order.
#[derive(Debug, Drop)]
pub enum CItem {
    Struct(StructDecl),
    Function(Function),
}

/// A file: the number in its `call_depth`, and its items.
#[derive(Debug, Drop)]
pub struct Program {
    pub depth: u32,
    pub items: CItemList,
}
