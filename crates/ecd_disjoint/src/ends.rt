//! The ends of arrays.

ghost use Rattle.std.specs.Prelude.{◌≡◌, ◌<◌, length, get_or};
ghost use Rattle.ecd_apart.specs.Apart.{is_one};
ghost use Rattle.ecd_disjoint.specs.Ends.{facing};

use ecd_core::Part;

/// An end of an array.
#[derive(Clone, Copy)]
pub(crate) enum End {
    /// Places count from the first part on.
    First,
    /// Places count from the last part back.
    Last,
}

/// Whether the part is one item.
pub(crate) fn is_single(part: &Part) -> bool
    ensures { result ≡ is_one part.now }
{
    match part {
        Part::One(_) => true,
        Part::Opt { .. } => false,
        Part::Many { .. } => false,
        Part::Alt { .. } => false,
    }
}

/// The part at a place, counted from this end.
pub(crate) fn at_end(parts: &[Part], end: End, place: usize) -> &Part
    requires { place < length parts.now }
    ensures { result.now ≡ get_or (facing end parts.now) place result.now }
{
    match end {
        End::First => &parts[place],
        End::Last => &parts[parts.len() - 1 - place],
    }
}
