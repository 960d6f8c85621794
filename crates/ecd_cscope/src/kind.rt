//! Kinds of expressions.

ghost use Rattle.std.specs.Prelude.{◌≡◌};
ghost use Rattle.ecd_cast.specs.Kinds.{takes, result_kind, operands_fit, param_kind, sum_kind, is_summand};
ghost use Rattle.ecd_cscope.specs.Surroundings.{cell_kind};
ghost use Rattle.ecd_cscope.specs.Variables.{kind_as};

use ecd_cast::tree::{CellKind, Op, ParamKind};

/// The kind of an expression. `Unknown` is that of a part that breaks a rule already.
#[derive(Clone, Copy)]
pub enum Kind<'a> {
    Number,
    Truth,
    ReadPointer,
    WritePointer,
    Unknown,
    /// A struct, by its name.
    Struct(&'a [u8]),
}

impl<'a> Kind<'a> {
    /// Whether a part of another kind may stand where this one is asked for.
    pub fn takes(self, got: Kind<'a>) -> bool
        ensures { result ≡ takes (kind_as self.entry) (kind_as got.entry) }
    {
        match (self, got) {
            (Kind::Unknown, _) | (_, Kind::Unknown) => true,
            (Kind::Number, Kind::Number) => true,
            (Kind::Truth, Kind::Truth) => true,
            (Kind::ReadPointer, Kind::ReadPointer) => true,
            (Kind::WritePointer, Kind::WritePointer) => true,
            (Kind::Struct(asked), Kind::Struct(name)) => asked == name,
            _ => false,
        }
    }

    /// The kind of what a parameter takes.
    pub fn of_param(kind: &'a ParamKind) -> Kind<'a>
        ensures { kind_as result ≡ param_kind kind.now }
    {
        match kind {
            ParamKind::Number => Kind::Number,
            ParamKind::ReadPointer => Kind::ReadPointer,
            ParamKind::WritePointer => Kind::WritePointer,
            ParamKind::Struct(name) => Kind::Struct(name.as_slice()),
        }
    }

    /// The kind of what a cell holds.
    pub fn of_cell(kind: CellKind) -> Kind<'a>
        ensures { kind_as result ≡ cell_kind kind }
    {
        match kind {
            CellKind::Number => Kind::Number,
            CellKind::Pointer => Kind::ReadPointer,
        }
    }

    /// The kind of a sum, by its left operand's.
    fn of_sum(self) -> Kind<'a>
        ensures { kind_as result ≡ sum_kind (kind_as self.entry) }
    {
        match self {
            Kind::ReadPointer | Kind::WritePointer | Kind::Unknown => self,
            Kind::Number | Kind::Truth | Kind::Struct(_) => Kind::Number,
        }
    }

    /// The kind of a result, by its left operand's.
    pub fn of_result(op: Op, left: Kind<'a>) -> Kind<'a>
        ensures { kind_as result ≡ result_kind op (kind_as left.entry) }
    {
        match op {
            Op::Add => left.of_sum(),
            Op::Sub | Op::Mul | Op::Shl | Op::Shr | Op::BitAnd | Op::BitOr => Kind::Number,
            Op::Eq | Op::Ne | Op::Lt | Op::Le | Op::Gt | Op::Ge | Op::And | Op::Or => Kind::Truth,
        }
    }

    /// Whether it may stand on the left side of a sum.
    fn is_summand(self) -> bool
        ensures { result ≡ is_summand (kind_as self.entry) }
    {
        match self {
            Kind::Number | Kind::ReadPointer | Kind::WritePointer | Kind::Unknown => true,
            Kind::Truth | Kind::Struct(_) => false,
        }
    }

    /// Whether an operator takes operands of these kinds.
    pub fn fit(op: Op, left: Kind<'a>, right: Kind<'a>) -> bool
        ensures { result ≡ operands_fit op (kind_as left.entry) (kind_as right.entry) }
    {
        match op {
            Op::Add => left.is_summand() && Kind::Number.takes(right),
            Op::And | Op::Or => Kind::Truth.takes(left) && Kind::Truth.takes(right),
            Op::Sub | Op::Mul | Op::Shl | Op::Shr | Op::BitAnd | Op::BitOr => {
                Kind::Number.takes(left) && Kind::Number.takes(right)
            }
            Op::Eq | Op::Ne | Op::Lt | Op::Le | Op::Gt | Op::Ge => {
                Kind::Number.takes(left) && Kind::Number.takes(right)
            }
        }
    }
}
