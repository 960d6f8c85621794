//! Facts about the functions' meanings, each the contract of a function that does nothing.

ghost use Rattle.ecd_rt.specs.Runtime.{RuntimeIsKept};

/// Whatever is put behind them, the functions over heads, of extents, of UTF-8, of comparison, those that write heads and
/// the copier are still there, and so are `text_end` and each `any_d` up to the depth. Where no function in it has one of
/// their names, nor that of an `items_d` or `pairs_d` below the depth, each of them still means the same.
pub fn runtime_is_kept()
    ensures { RuntimeIsKept }
{}
