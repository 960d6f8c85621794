//! Values: what a reader takes out of an item, and a writer is given.

use ecd_list::{Boxed, ByteList, List};

/// The values of a group (of parts, entries, fields, or a pair's key and value), of bodies one after another, or of a table's pairs.
pub type ValueList = List<Value>;

/// The value of an item, or of a part of an array or map, under its shape.
#[derive(Debug, Drop)]
pub enum Value {
    /// Of an integer with equal bounds, a given string or a simple value.
    Unit,
    /// The argument of an integer.
    Number(u64),
    /// The bytes of a string, or the encoding of an item under `Kind::Any` or `Kind::AnyOf`.
    Bytes(ByteList),
    /// The number of an alternative or way, from 0, and its value.
    Way(u32, Boxed<Value>),
    /// The number of a tag, and the value of what it encloses.
    Tagged(u64, Boxed<Value>),
    /// The values of the parts of an array or body, of the entries of a map, of the fields of a way, or of the key and the value of a table's pair.
    Group(ValueList),
    /// Of a part, field or pick that is not there.
    Absent,
    /// Of a part or field that may be absent and is there.
    Present(Boxed<Value>),
    /// The values of bodies one after another, or of the pairs of a table.
    Many(ValueList),
}
