//! Facts about the functions' meanings, each the contract of a function that does nothing.

ghost use Rattle.ecd_fixed_heads.specs.ExtentsStanding.{ExtentsAreKept};
ghost use Rattle.ecd_fixed_heads.specs.Framed.{FramedEndOnce, ValidIsFramed};
ghost use Rattle.ecd_fixed_heads.specs.Standing.{FirstBytesTell, HeadsAreKept, HeadsAreRead, HeadsEnd};

/// Whatever is put behind them, `load_be16`, `load_be32`, `load_be64`, `head_size`, `head_least`, `head_argument`,
/// `head_end` and `head_within` are still there. Where no function in it has one of these names, each still means the
/// same.
pub fn heads_are_kept()
    ensures { HeadsAreKept }
{}

/// A head is read at a place exactly where it can be written and its shortest bytes stand there.
pub fn heads_are_read()
    ensures { HeadsAreRead }
{}

/// Where `head_size` answers 0 for a byte, no head begins with it. Else some head does, and each has so many bytes and an
/// argument of at least what `head_least` answers.
pub fn first_bytes_tell()
    ensures { FirstBytesTell }
{}

/// `head_within` answers the one place where a head of its kind ends, or 0.
pub fn heads_end()
    ensures { HeadsEnd }
{}

/// Every valid item is framed, and no encoding of a framed item begins another.
pub fn framed_items()
    ensures valid { ValidIsFramed }
    ensures once { FramedEndOnce }
{}

/// Whatever is put behind them, `own_end`, `items_inside` and `item_end` are still there. Where no function in it has
/// one of these names, each still means the same.
pub fn extents_are_kept()
    ensures { ExtentsAreKept }
{}
