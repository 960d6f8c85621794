//! How many items the parts of an array's group take. Sums and products stop at 2^64 - 1.

ghost use Rattle.std.specs.Prelude.{◌≡◌};
ghost use Rattle.ecd_apart.specs.Counts.{part_least, part_greatest};
ghost use Rattle.ecd_disjoint.specs.Counts.{items_least, items_greatest, ways_least_of, ways_greatest_of};

use ecd_core::{Part, Way};

/// The least number of items.
#[cycle(least)]
pub(crate) fn least_items(parts: &[Part]) -> u64
    ensures { result ≡ items_least parts.now }
{
    let mut count: u64 = 0;
    for part in parts {
        count = count.saturating_add(least_of(part));
    }
    count
}

/// The least number of items of a part.
#[cycle(least)]
fn least_of(part: &Part) -> u64
    ensures { result ≡ part_least part.now }
{
    match part {
        Part::One(_) => 1,
        Part::Opt { .. } => 0,
        Part::Many { lo, body, .. } => lo.saturating_mul(least_items(body.parts.as_slice())),
        Part::Alt { ways, .. } => least_way(ways.as_slice()),
    }
}

/// The least number of items of a way; 2^64 - 1 where there is none.
#[cycle(least)]
fn least_way(ways: &[Way]) -> u64
    ensures { result ≡ ways_least_of ways.now }
{
    let mut count = u64::MAX;
    for way in ways {
        count = count.min(least_items(way.body.parts.as_slice()));
    }
    count
}

/// The greatest number of items.
#[cycle(greatest)]
pub(crate) fn greatest_items(parts: &[Part]) -> u64
    ensures { result ≡ items_greatest parts.now }
{
    let mut count: u64 = 0;
    for part in parts {
        count = count.saturating_add(greatest_of(part));
    }
    count
}

/// The greatest number of items of a part.
#[cycle(greatest)]
fn greatest_of(part: &Part) -> u64
    ensures { result ≡ part_greatest part.now }
{
    match part {
        Part::One(_) => 1,
        Part::Opt { body, .. } => greatest_items(body.parts.as_slice()),
        Part::Many { hi, body, .. } => hi.saturating_mul(greatest_items(body.parts.as_slice())),
        Part::Alt { ways, .. } => greatest_way(ways.as_slice()),
    }
}

/// The greatest number of items of a way; 0 where there is none.
#[cycle(greatest)]
fn greatest_way(ways: &[Way]) -> u64
    ensures { result ≡ ways_greatest_of ways.now }
{
    let mut count: u64 = 0;
    for way in ways {
        count = count.max(greatest_items(way.body.parts.as_slice()));
    }
    count
}
