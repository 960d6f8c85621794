//! Whether parts may take no item.

ghost use Rattle.std.specs.Prelude.{◌≡◌};
ghost use Rattle.ecd_shape_rules.specs.Starts.{part_may_be_empty};
ghost use Rattle.ecd_shape_rules.specs.Listed.{are_emptiable, some_is_emptiable};

use ecd_core::{Part, Way};

/// Whether all parts may take no item. It takes no memory.
#[cycle(emptiable)]
pub fn are_emptiable(parts: &[Part]) -> bool
    ensures { result ≡ are_emptiable parts.now }
{
    for part in parts {
        if !is_emptiable(part) {
            return false;
        }
    }
    true
}

/// Whether a part may take no item.
#[cycle(emptiable)]
pub(crate) fn is_emptiable(part: &Part) -> bool
    ensures { result ≡ part_may_be_empty part.now }
{
    match part {
        Part::One(_) => false,
        Part::Opt { .. } => true,
        Part::Many { lo, body, .. } => {
            if *lo == 0 {
                true
            } else {
                are_emptiable(body.parts.as_slice())
            }
        }
        Part::Alt { ways, .. } => some_is_emptiable(ways.as_slice()),
    }
}

/// Whether a way may take no item.
#[cycle(emptiable)]
fn some_is_emptiable(ways: &[Way]) -> bool
    ensures { result ≡ some_is_emptiable ways.now }
{
    for way in ways {
        if are_emptiable(way.body.parts.as_slice()) {
            return true;
        }
    }
    false
}
