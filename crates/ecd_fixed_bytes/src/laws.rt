//! Facts about the functions' meanings, each the contract of a function that does nothing.

ghost use Rattle.ecd_fixed_bytes.specs.Standing.{ComparisonIsKept, CopierIsKept, HeadWriterIsKept, Utf8IsKept};
ghost use Rattle.ecd_fixed_bytes.specs.Utf8.{StatesTell};

/// Whatever is put behind it, `compare_bytes` is still there. Where no function in it has this name, it still means the
/// same.
pub fn comparison_is_kept()
    ensures { ComparisonIsKept }
{}

/// Whatever is put behind them, `utf8_begin`, `utf8_next` and `utf8_valid` are still there. Where no function in it has
/// one of these names, each still means the same.
pub fn utf8_is_kept()
    ensures { Utf8IsKept }
{}

/// From the state between characters on, with a step of `utf8_next` for each byte, the state behind all bytes is the one
/// between characters exactly where they are UTF-8. Behind a state of 8 `utf8_next` is not asked again: it stays at 8.
pub fn states_tell_utf8()
    ensures { StatesTell }
{}

/// Whatever is put behind them, `head_length`, `store_be16`, `store_be32`, `store_be64` and `put_head` are still there.
/// Where no function in it has one of these names, each still means the same.
pub fn head_writer_is_kept()
    ensures { HeadWriterIsKept }
{}

/// Whatever is put behind it, `copy_bytes` is still there. Where no function in it has this name, it still means the
/// same.
pub fn copier_is_kept()
    ensures { CopierIsKept }
{}
