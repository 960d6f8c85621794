use ecd_cast::tree::CellInfoList;
use ecd_list::{ByteList, List};

/// Structs by their numbers, from 0.
pub type StructList = List<StructInfo>;

/// The structs of an emitted file.
#[derive(Debug, Drop)]
pub struct Layout {
    /// Struct 0 is the root's.
    pub structs: StructList,
}

/// A struct of an emitted file: that of the root, or of an element of a list or a pair of a table.
#[derive(Debug, Drop)]
pub struct StructInfo {
    /// Its cells, in order; one at least.
    pub cells: CellInfoList,
    /// The number of the struct in which the list or table lies; 0 for the root.
    pub owner: u32,
    /// Where the list or the table's entry lies in its owner: the path there, as bytes. Empty for the root.
    pub prefix: ByteList,
}
