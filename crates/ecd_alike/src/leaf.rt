//! Shapes that hold no other shape.

ghost use Rattle.std.specs.Prelude.{◌≡◌, ◌↔◌, true};
ghost use Rattle.ecd_alike.specs.Leaves.{LeafAlike, RangeAlike, SingleAlike};

use ecd_core::{Kind, Shape};

/// Whether the first is a range of numbers or lengths, and the other is the same one.
fn is_same_range(a: &Shape, b: &Shape) -> bool
    ensures { (result ≡ true) ↔ RangeAlike a.now.kind b.now.kind }
{
    match &a.kind {
        Kind::Uint { lo, hi } => match &b.kind {
            Kind::Uint {
                lo: least,
                hi: most,
            } => *lo == *least && *hi == *most,
            _ => false,
        },
        Kind::Nint { lo, hi } => match &b.kind {
            Kind::Nint {
                lo: least,
                hi: most,
            } => *lo == *least && *hi == *most,
            _ => false,
        },
        Kind::Bytes { lo, hi } => match &b.kind {
            Kind::Bytes {
                lo: least,
                hi: most,
            } => *lo == *least && *hi == *most,
            _ => false,
        },
        Kind::Text { lo, hi } => match &b.kind {
            Kind::Text {
                lo: least,
                hi: most,
            } => *lo == *least && *hi == *most,
            _ => false,
        },
        _ => false,
    }
}

/// Whether the first is one string or simple value, or is any item, and the other is the same.
fn is_same_single(a: &Shape, b: &Shape) -> bool
    ensures { (result ≡ true) ↔ SingleAlike a.now.kind b.now.kind }
{
    match &a.kind {
        Kind::BytesIs(bytes) => match &b.kind {
            Kind::BytesIs(other) => bytes.as_slice() == other.as_slice(),
            _ => false,
        },
        Kind::TextIs(bytes) => match &b.kind {
            Kind::TextIs(other) => bytes.as_slice() == other.as_slice(),
            _ => false,
        },
        Kind::Simple(n) => match &b.kind {
            Kind::Simple(other) => *n == *other,
            _ => false,
        },
        Kind::Any { depth } => match &b.kind {
            Kind::Any { depth: other } => *depth == *other,
            _ => false,
        },
        Kind::AnyOf { major, depth } => match &b.kind {
            Kind::AnyOf {
                major: other,
                depth: levels,
            } => *major == *other && *depth == *levels,
            _ => false,
        },
        _ => false,
    }
}

/// Whether the first holds no other shape, and the other is the same.
pub(crate) fn is_same_leaf(a: &Shape, b: &Shape) -> bool
    ensures { (result ≡ true) ↔ LeafAlike a.now.kind b.now.kind }
{
    if is_same_range(a, b) {
        true
    } else {
        is_same_single(a, b)
    }
}
