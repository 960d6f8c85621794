//! Which heads a shape admits.

ghost use Rattle.std.specs.Prelude.{◌≡◌, ◌↔◌, ◌⊎◌, ◌≤◌, [], ◌∷◌, true, take, map};
ghost use Rattle.ecd_core.specs.Lists.{Each};
ghost use Rattle.ecd_apart.specs.Counts.{top};
ghost use Rattle.ecd_apart.specs.Boxes.{box, all_of_major, boxes, boxes_to_depth, of_major, ShareNone, BoxesApart};
ghost use Rattle.ecd_disjoint.specs.Spans.{box_of, every_major, SpansApart, SpanApart};
ghost use Rattle.ecd_disjoint.specs.Leaves.{LiteralsDiffer};

use crate::counts::{greatest_items, least_items};
use crate::map_counts::{greatest_pairs, least_pairs};
use ecd_core::{Kind, Shape};

/// The heads of a major type with the arguments from a least to a greatest one (RFC 8949, section 3).
#[derive(Clone, Copy)]
pub(crate) struct Span {
    major: u8,
    lo: u64,
    hi: u64,
}

/// The boxes of a shape: the first so many of these spans.
#[derive(Drop)]
pub(crate) struct Boxes {
    spans: [Span; 9],
    count: usize,
}

const UNUSED: Span = Span {
    major: 0,
    lo: 0,
    hi: 0,
};

/// The simple values that an item's first byte holds (RFC 8949, section 3.3).
const LOW: Span = Span {
    major: 7,
    lo: 0,
    hi: 23,
};

/// The simple values that a second byte holds.
const HIGH: Span = Span {
    major: 7,
    lo: 32,
    hi: 255,
};

/// Every head of a major type.
fn whole(major: u8) -> Span
    ensures { box_of result ≡ all_of_major major }
{
    Span {
        major,
        lo: 0,
        hi: u64::MAX,
    }
}

/// One box.
fn one(major: u8, lo: u64, hi: u64) -> Boxes
    ensures spans { map box_of (take result.count result.spans) ≡ box major lo hi ∷ [] }
    ensures few { result.count ≤ 9 }
{
    Boxes {
        spans: [
            Span { major, lo, hi },
            UNUSED,
            UNUSED,
            UNUSED,
            UNUSED,
            UNUSED,
            UNUSED,
            UNUSED,
            UNUSED,
        ],
        count: 1,
    }
}

/// The boxes of any item up to a depth.
fn any_boxes(depth: u8) -> Boxes
    ensures spans { map box_of (take result.count result.spans) ≡ boxes_to_depth depth }
    ensures few { result.count ≤ 9 }
{
    let count = if depth == 0 { 6 } else { 9 };
    Boxes {
        spans: [
            whole(0),
            whole(1),
            whole(2),
            whole(3),
            LOW,
            HIGH,
            whole(4),
            whole(5),
            whole(6),
        ],
        count,
    }
}

/// The boxes of an item of a major type up to a depth.
fn major_boxes(major: u8, depth: u8) -> Boxes
    ensures spans { map box_of (take result.count result.spans) ≡ of_major major (boxes_to_depth depth) }
    ensures few { result.count ≤ 9 }
{
    if major < 4 {
        return one(major, 0, u64::MAX);
    }
    if major < 7 && depth > 0 {
        return one(major, 0, u64::MAX);
    }
    let count = if major == 7 { 2 } else { 0 };
    Boxes {
        spans: [
            LOW, HIGH, UNUSED, UNUSED, UNUSED, UNUSED, UNUSED, UNUSED, UNUSED,
        ],
        count,
    }
}

/// Every head.
fn every_box() -> Boxes
    ensures spans { map box_of (take result.count result.spans) ≡ every_major }
    ensures few { result.count ≤ 9 }
{
    Boxes {
        spans: [
            whole(0),
            whole(1),
            whole(2),
            whole(3),
            whole(4),
            whole(5),
            whole(6),
            whole(7),
            UNUSED,
        ],
        count: 8,
    }
}

/// The boxes of a shape.
fn boxes_of(shape: &Shape) -> Boxes
    ensures spans { map box_of (take result.count result.spans) ≡ boxes shape.now.kind }
    ensures few { result.count ≤ 9 }
{
    match &shape.kind {
        Kind::Uint { lo, hi } => one(0, *lo, *hi),
        Kind::Nint { lo, hi } => one(1, *lo, *hi),
        Kind::Bytes { lo, hi } => one(2, *lo, *hi),
        Kind::Text { lo, hi } => one(3, *lo, *hi),
        Kind::BytesIs(bytes) => one(2, bytes.len() as u64, bytes.len() as u64),
        Kind::TextIs(bytes) => one(3, bytes.len() as u64, bytes.len() as u64),
        Kind::Simple(value) => one(7, u64::from(*value), u64::from(*value)),
        Kind::Tag(number, _) => one(6, *number, *number),
        Kind::AnyTag(_) => one(6, 0, u64::MAX),
        Kind::Any { depth } => any_boxes(*depth),
        Kind::AnyOf { major, depth } => major_boxes(*major, *depth),
        Kind::Cbor(_) => one(2, 1, u64::MAX),
        Kind::Choice(_) => every_box(),
        Kind::Array(group) => one(
            4,
            least_items(group.parts.as_slice()),
            greatest_items(group.parts.as_slice()),
        ),
        Kind::Map(entries) => one(
            5,
            least_pairs(entries.as_slice()),
            greatest_pairs(entries.as_slice()),
        ),
    }
}

/// Whether two boxes share no head.
#[tactic(auto, unfolding(ecd_apart::specs::Counts::cap), using(crate::proofs::Spans::share))]
fn shares_none(span: Span, other: Span) -> bool
    ensures { (result ≡ true) ↔ ShareNone (box_of span) (box_of other) }
{
    if span.major != other.major {
        return true;
    }
    if span.hi < other.lo {
        return true;
    }
    if other.hi < span.lo {
        return true;
    }
    if span.hi < span.lo {
        return true;
    }
    other.hi < other.lo
}

/// Whether a box shares no head with any of these.
fn is_outside(span: Span, others: &[Span]) -> bool
    ensures { (result ≡ true) ↔ SpanApart others.now span }
{
    for other in others {
        if !shares_none(span, *other) {
            return false;
        }
    }
    true
}

/// Whether none of these boxes shares a head with any of those.
fn are_outside(spans: &[Span], others: &[Span]) -> bool
    ensures { (result ≡ true) ↔ SpansApart spans.now others.now }
{
    for span in spans {
        if !is_outside(*span, others) {
            return false;
        }
    }
    true
}

/// Whether two shapes share no head, each by its boxes.
pub(crate) fn heads_apart(first: &Shape, second: &Shape) -> bool
    ensures { (result ≡ true) ↔ BoxesApart first.now.kind second.now.kind }
{
    let own = boxes_of(first);
    let others = boxes_of(second);
    are_outside(&own.spans[..own.count], &others.spans[..others.count])
}

/// Whether two shapes are literal strings of one type whose bytes differ.
pub(crate) fn literals_differ(first: &Shape, second: &Shape) -> bool
    ensures { (result ≡ true) ↔ LiteralsDiffer first.now.kind second.now.kind }
{
    match &first.kind {
        Kind::BytesIs(bytes) => match &second.kind {
            Kind::BytesIs(others) => bytes.as_slice() != others.as_slice(),
            _ => false,
        },
        Kind::TextIs(bytes) => match &second.kind {
            Kind::TextIs(others) => bytes.as_slice() != others.as_slice(),
            _ => false,
        },
        _ => false,
    }
}
