//! Shapes: a schema with every name, generic and operator put in place (RFC 8610, sections 2 and 3).
//!
//! A field `at` is the place in the schema's text that a node comes from, as a byte offset. It has no part in what the node means.

use ecd_list::{Boxed, ByteList, List};

/// The alternatives of a choice.
pub type ShapeList = List<Shape>;

/// The parts of a group.
pub type PartList = List<Part>;

/// The ways of a choice of groups in an array.
pub type WayList = List<Way>;

/// The entries of a map, or of a way of a pick.
pub type EntryList = List<MapEntry>;

/// The ways of a pick.
pub type MapWayList = List<MapWay>;

/// A type (RFC 8610, section 2.2), with its place.
#[cycle(shape)]
#[derive(Debug, Drop)]
pub struct Shape {
    /// Where it stands in the schema.
    pub at: u32,
    /// What it holds.
    pub kind: Kind,
}

/// What a shape holds. Bounds count from `lo` to `hi`, both included.
#[cycle(shape)]
#[derive(Debug, Drop)]
pub enum Kind {
    /// An unsigned integer within bounds; one with equal bounds is a literal (RFC 8610, sections 2.2.1 and 2.2.2.1).
    Uint { lo: u64, hi: u64 },
    /// A negative integer, -1 - n, whose argument n is within bounds; one with equal bounds is a literal.
    Nint { lo: u64, hi: u64 },
    /// A byte string whose number of bytes is within bounds (RFC 8610, section 3.8.1).
    Bytes { lo: u64, hi: u64 },
    /// A text string whose number of bytes is within bounds (RFC 8610, section 3.8.1).
    Text { lo: u64, hi: u64 },
    /// This byte string (RFC 8610, section 3.1).
    BytesIs(ByteList),
    /// This text string (RFC 8610, section 3.1).
    TextIs(ByteList),
    /// This simple value (RFC 8610, section 2.2.3).
    Simple(u8),
    /// A tag of this number, and what it encloses (RFC 8610, section 3.6).
    Tag(u64, Boxed<Shape>),
    /// A tag of any number, and what it encloses (RFC 8610, section 3.6, where the number is left out).
    AnyTag(Boxed<Shape>),
    /// Any item without floats that nests at most this deep (RFC 8610, section 2.2.3, which has floats and no bound on the depth).
    Any { depth: u8 },
    /// Such an item of this major type (RFC 8610, section 2.2.3).
    AnyOf { major: u8, depth: u8 },
    /// A byte string that is the deterministic encoding of an item of this shape, whose depth counts from 0 again (RFC 8610, section 3.8.4, which does not ask
    /// for the deterministic encoding).
    Cbor(Boxed<Shape>),
    /// One of these (RFC 8610, section 2.2.2). There may be none, and then no item has a value.
    Choice(ShapeList),
    /// An array (RFC 8610, section 3.4).
    Array(Group),
    /// A map (RFC 8610, section 3.5).
    Map(EntryList),
}

/// A sequence of items in an array (RFC 8610, section 2.1).
#[cycle(shape)]
#[derive(Debug, Drop)]
pub struct Group {
    /// Its parts, in order.
    pub parts: PartList,
}

/// A part of a group (RFC 8610, sections 2.1 and 3.2).
#[cycle(shape)]
#[derive(Debug, Drop)]
pub enum Part {
    /// One item.
    One(Shape),
    /// Nothing, or one body.
    Opt {
        at: u32,
        body: Group,
    },
    /// Bodies one after another, as many as the bounds allow.
    Many {
        at: u32,
        lo: u64,
        hi: u64,
        body: Group,
    },
    /// One of these ways (RFC 8610, section 2.2.2). There may be none, and then no items have a value.
    Alt {
        at: u32,
        ways: WayList,
    },
}

/// A way of a choice of groups (RFC 8610, section 2.2.2).
#[cycle(shape)]
#[derive(Debug, Drop)]
pub struct Way {
    /// Where it stands in the schema.
    pub at: u32,
    /// What it holds.
    pub body: Group,
}

/// An entry of a map (RFC 8610, section 3.5).
#[cycle(shape)]
#[derive(Debug, Drop)]
pub enum MapEntry {
    /// One pair, by its key.
    Field(Field),
    /// One of several groups of fields.
    Pick(Pick),
    /// Pairs whose keys and values are of two shapes.
    Table(Table),
}

/// A pair with one key (RFC 8610, section 3.5.1).
#[cycle(shape)]
#[derive(Debug, Drop)]
pub struct Field {
    /// Where it stands in the schema.
    pub at: u32,
    /// The shape of the key. A field whose key is no literal fits no map.
    pub key: Shape,
    /// Whether a pair with this key that no field takes and whose value is not of the field's shape may go to no table, where the field is tried (RFC 8610,
    /// section 3.5.4).
    pub cut: bool,
    /// The lower bound: a field with 0 may be absent, every other one is needed (RFC 8610, section 3.2).
    pub lo: u64,
    /// The shape of the value.
    pub value: Shape,
}

/// A choice of groups in a map (RFC 8610, section 2.2.2 and appendix A).
#[cycle(shape)]
#[derive(Debug, Drop)]
pub struct Pick {
    /// Where it stands in the schema.
    pub at: u32,
    /// Whether one of the ways has to be taken.
    pub needed: bool,
    /// The ways, in the order in which they are tried.
    pub ways: MapWayList,
}

/// A way of a pick (RFC 8610, section 2.2.2).
#[cycle(shape)]
#[derive(Debug, Drop)]
pub struct MapWay {
    /// Where it stands in the schema.
    pub at: u32,
    /// Its fields. Another entry has no part in it.
    pub entries: EntryList,
}

/// Pairs of one kind (RFC 8610, section 3.5.2).
#[cycle(shape)]
#[derive(Debug, Drop)]
pub struct Table {
    /// Where it stands in the schema.
    pub at: u32,
    /// The least number of pairs.
    pub lo: u64,
    /// The greatest number of pairs.
    pub hi: u64,
    /// The shape of the keys.
    pub key: Shape,
    /// The shape of the values.
    pub value: Shape,
}
