//! The values of a running program.

/// What a cell of a struct holds while the program runs.
#[derive(Clone, Copy, PartialEq, Eq, Debug)]
pub enum Cell {
    Unset,
    Number(u64),
    /// A pointer: the number of a block, and an offset from 0 to its length.
    Bytes { block: u32, offset: u64 },
}

/// What an expression gives and a parameter takes.
#[derive(Clone, Copy, PartialEq, Eq, Debug)]
pub enum Value {
    Number(u64),
    Truth(bool),
    /// A pointer: the number of a block, and an offset from 0 to its length.
    Bytes { block: u32, offset: u64 },
    /// A struct: the number of the block with its cells.
    Struct { block: u32 },
}
