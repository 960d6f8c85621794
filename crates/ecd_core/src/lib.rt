//! What a schema means: shapes, values, and which value an item has under a shape, in the sense of RFC 8610. The matching of a map's pairs with its entries is
//! this project's own.
#![tactic(auto)]

pub mod laws;
mod shape;
mod value;

pub use ecd_list::{Boxed, ByteList, List};
pub use shape::{
    EntryList, Field, Group, Kind, MapEntry, MapWay, MapWayList, Part, PartList, Pick, Shape,
    ShapeList, Table, Way, WayList,
};
pub use value::{Value, ValueList};
