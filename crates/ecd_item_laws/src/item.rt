//! Data items: RFC 8949, section 2.

use ecd_list::{Boxed, ByteList, List};

/// The items of an array.
pub type ItemList = List<Item>;

/// The pairs of a map.
pub type PairList = List<Pair>;

/// A pair of a map.
#[cycle(item)]
#[derive(Debug, Drop)]
pub struct Pair {
    /// The key.
    pub key: Item,
    /// The value.
    pub value: Item,
}

/// A data item (RFC 8949, section 2), without floats.
#[cycle(item)]
#[derive(Debug, Drop)]
pub enum Item {
    /// An unsigned integer.
    Uint(u64),
    /// The negative integer -1 - n, by its argument n.
    Nint(u64),
    /// A byte string.
    Bytes(ByteList),
    /// A text string, by its bytes.
    Text(ByteList),
    /// An array.
    Array(ItemList),
    /// A map, as its pairs in order.
    Map(PairList),
    /// A tag: its number, and the item that it encloses.
    Tag(u64, Boxed<Item>),
    /// A simple value: 20 is false, 21 true, 22 null.
    Simple(u8),
}
