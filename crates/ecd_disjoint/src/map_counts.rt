//! How many pairs the entries of a map take. Sums stop at 2^64 - 1.

ghost use Rattle.std.specs.Prelude.{◌≡◌};
ghost use Rattle.ecd_apart.specs.Counts.{entry_least, entry_greatest};
ghost use Rattle.ecd_disjoint.specs.Counts.{needed_pairs, field_pairs, entries_least, entries_greatest, needed_in_way, fields_in_way, map_ways_least_of, map_ways_greatest_of};

use ecd_core::{MapEntry, MapWay};

/// 1 for a field that is needed. Nothing else counts in a way.
fn needed_of(entry: &MapEntry) -> u64
    ensures { result ≡ needed_pairs entry.now }
{
    match entry {
        MapEntry::Field(field) => { if field.lo > 0 { 1 } else { 0 } }
        MapEntry::Pick(_) => 0,
        MapEntry::Table(_) => 0,
    }
}

/// 1 for a field. Nothing else counts in a way.
fn field_of(entry: &MapEntry) -> u64
    ensures { result ≡ field_pairs entry.now }
{
    match entry {
        MapEntry::Field(_) => 1,
        MapEntry::Pick(_) => 0,
        MapEntry::Table(_) => 0,
    }
}

/// The number of needed fields of a way.
fn needed_fields(entries: &[MapEntry]) -> u64
    ensures { result ≡ needed_in_way entries.now }
{
    let mut count: u64 = 0;
    for entry in entries {
        count = count.saturating_add(needed_of(entry));
    }
    count
}

/// The number of fields of a way.
fn all_fields(entries: &[MapEntry]) -> u64
    ensures { result ≡ fields_in_way entries.now }
{
    let mut count: u64 = 0;
    for entry in entries {
        count = count.saturating_add(field_of(entry));
    }
    count
}

/// The least number of needed fields of a way; 2^64 - 1 where there is none.
fn least_way(ways: &[MapWay]) -> u64
    ensures { result ≡ map_ways_least_of ways.now }
{
    let mut count = u64::MAX;
    for way in ways {
        count = count.min(needed_fields(way.entries.as_slice()));
    }
    count
}

/// The greatest number of fields of a way; 0 where there is none.
fn greatest_way(ways: &[MapWay]) -> u64
    ensures { result ≡ map_ways_greatest_of ways.now }
{
    let mut count: u64 = 0;
    for way in ways {
        count = count.max(all_fields(way.entries.as_slice()));
    }
    count
}

/// The least number of pairs of an entry.
fn least_of(entry: &MapEntry) -> u64
    ensures { result ≡ entry_least entry.now }
{
    match entry {
        MapEntry::Field(_) => needed_of(entry),
        MapEntry::Pick(pick) => {
            if !pick.needed {
                return 0;
            }
            least_way(pick.ways.as_slice())
        }
        MapEntry::Table(table) => table.lo,
    }
}

/// The greatest number of pairs of an entry.
fn greatest_of(entry: &MapEntry) -> u64
    ensures { result ≡ entry_greatest entry.now }
{
    match entry {
        MapEntry::Field(_) => 1,
        MapEntry::Pick(pick) => greatest_way(pick.ways.as_slice()),
        MapEntry::Table(table) => table.hi,
    }
}

/// The least number of pairs.
pub(crate) fn least_pairs(entries: &[MapEntry]) -> u64
    ensures { result ≡ entries_least entries.now }
{
    let mut count: u64 = 0;
    for entry in entries {
        count = count.saturating_add(least_of(entry));
    }
    count
}

/// The greatest number of pairs.
pub(crate) fn greatest_pairs(entries: &[MapEntry]) -> u64
    ensures { result ≡ entries_greatest entries.now }
{
    let mut count: u64 = 0;
    for entry in entries {
        count = count.saturating_add(greatest_of(entry));
    }
    count
}
