//! The test of two shapes.
//!
//! It takes no memory. Each call looks at fewer nodes of the two shapes together, so the recursion is no deeper than they have nodes.

ghost use Rattle.std.specs.Prelude.{◌≡◌, ◌↔◌, true};
ghost use Rattle.ecd_core.specs.Lists.{Each, HasSome};
ghost use Rattle.ecd_apart.specs.Apart.{Apart};
ghost use Rattle.ecd_disjoint.specs.Inside.{InsideApart, EachIsApart};
ghost use Rattle.ecd_disjoint.specs.Ends.{SinglesApart, EndsApart};
ghost use Rattle.ecd_disjoint.specs.Misses.{SomeMissed, PairMisses, EntryMisses, WaysMissPair, FieldsMissPair};

use crate::boxes::{heads_apart, literals_differ};
use crate::ends::{End, at_end, is_single};
use crate::keys::{has_cut, is_same_key};
use ecd_core::{Field, Kind, MapEntry, MapWay, Part, Shape};

/// Whether two shapes are apart: by the shapes alone they share no item. A choice is apart where each alternative is (RFC 8610, section 2.2.2). It takes no
/// memory.
#[cycle(walk)]
pub fn apart(first: &Shape, second: &Shape) -> bool
    ensures { (result ≡ true) ↔ Apart first.now.kind second.now.kind }
{
    match &first.kind {
        Kind::Choice(ways) => each_apart(ways.as_slice(), second),
        _ => match &second.kind {
            Kind::Choice(ways) => each_apart(ways.as_slice(), first),
            _ => {
                if heads_apart(first, second) {
                    return true;
                }
                if literals_differ(first, second) {
                    return true;
                }
                insides_apart(first, second)
            }
        },
    }
}

/// Whether each alternative is apart from the shape.
#[cycle(walk)]
fn each_apart(ways: &[Shape], other: &Shape) -> bool
    ensures { (result ≡ true) ↔ EachIsApart ways.now other.now.kind }
{
    for way in ways {
        if !apart(way, other) {
            return false;
        }
    }
    true
}

/// Whether what two shapes hold makes them apart: the contents of tags or of byte strings, the ends of arrays, or a needed pair of a map.
#[cycle(walk)]
fn insides_apart(first: &Shape, second: &Shape) -> bool
    ensures { (result ≡ true) ↔ InsideApart first.now.kind second.now.kind }
{
    match &first.kind {
        Kind::Tag(_, inner) => match &second.kind {
            Kind::Tag(_, other) => apart(inner.get(), other.get()),
            Kind::AnyTag(other) => apart(inner.get(), other.get()),
            _ => false,
        },
        Kind::AnyTag(inner) => match &second.kind {
            Kind::Tag(_, other) => apart(inner.get(), other.get()),
            Kind::AnyTag(other) => apart(inner.get(), other.get()),
            _ => false,
        },
        Kind::Cbor(inner) => match &second.kind {
            Kind::Cbor(other) => apart(inner.get(), other.get()),
            _ => false,
        },
        Kind::Array(group) => match &second.kind {
            Kind::Array(other) => {
                if ends_apart(group.parts.as_slice(), other.parts.as_slice(), End::First) {
                    return true;
                }
                ends_apart(group.parts.as_slice(), other.parts.as_slice(), End::Last)
            }
            _ => false,
        },
        Kind::Map(entries) => match &second.kind {
            Kind::Map(others) => {
                if some_missed(entries.as_slice(), others.as_slice()) {
                    return true;
                }
                some_missed(others.as_slice(), entries.as_slice())
            }
            _ => false,
        },
        _ => false,
    }
}

/// Whether at one place, counted from this end, two arrays have single items of shapes that are apart, with nothing but single items before.
#[cycle(walk)]
fn ends_apart(parts: &[Part], others: &[Part], end: End) -> bool
    ensures { (result ≡ true) ↔ EndsApart end parts.now others.now }
{
    let mut place = 0;
    while place < parts.len() && place < others.len() {
        let part = at_end(parts, end, place);
        let other = at_end(others, end, place);
        if !is_single(part) || !is_single(other) {
            return false;
        }
        if singles_apart(part, other) {
            return true;
        }
        place += 1;
    }
    false
}

/// Whether both parts are single items, of shapes that are apart.
#[cycle(walk)]
fn singles_apart(part: &Part, other: &Part) -> bool
    ensures { (result ≡ true) ↔ SinglesApart part.now other.now }
{
    match part {
        Part::One(shape) => match other {
            Part::One(another) => apart(shape, another),
            Part::Opt { .. } => false,
            Part::Many { .. } => false,
            Part::Alt { .. } => false,
        },
        Part::Opt { .. } => false,
        Part::Many { .. } => false,
        Part::Alt { .. } => false,
    }
}

/// Whether the pair of a needed field among these has no place among the others.
#[cycle(walk)]
fn some_missed(entries: &[MapEntry], others: &[MapEntry]) -> bool
    ensures { (result ≡ true) ↔ SomeMissed entries.now others.now }
{
    for entry in entries {
        match entry {
            MapEntry::Field(field) => {
                if field.lo > 0 && pair_misses(others, field) {
                    return true;
                }
            }
            MapEntry::Pick(_) => {}
            MapEntry::Table(_) => {}
        }
    }
    false
}

/// Whether a pair of this field has no place among the entries of a map.
#[cycle(walk)]
fn pair_misses(entries: &[MapEntry], field: &Field) -> bool
    ensures { (result ≡ true) ↔ PairMisses field.now.key.kind field.now.value.kind entries.now }
{
    let cut = has_cut(entries, &field.key);
    for entry in entries {
        if !entry_misses(entry, field, cut) {
            return false;
        }
    }
    true
}

/// Whether a pair of this field has no place in an entry, where it may be said that a plain field of its key has a cut.
#[cycle(walk)]
fn entry_misses(entry: &MapEntry, field: &Field, cut: bool) -> bool
    ensures { (result ≡ true) ↔ EntryMisses field.now.key.kind field.now.value.kind (cut ≡ true) entry.now }
{
    match entry {
        MapEntry::Field(other) => {
            if !is_same_key(&field.key, &other.key) {
                return true;
            }
            apart(&field.value, &other.value)
        }
        MapEntry::Pick(pick) => ways_miss(pick.ways.as_slice(), field),
        MapEntry::Table(table) => {
            if cut {
                return true;
            }
            if apart(&field.key, &table.key) {
                return true;
            }
            apart(&field.value, &table.value)
        }
    }
}

/// Whether a pair of this field has no place in any way of a pick.
#[cycle(walk)]
fn ways_miss(ways: &[MapWay], field: &Field) -> bool
    ensures { (result ≡ true) ↔ WaysMissPair field.now.key.kind field.now.value.kind ways.now }
{
    for way in ways {
        if !fields_miss(way.entries.as_slice(), field) {
            return false;
        }
    }
    true
}

/// Whether a pair of this field has no place in a field among these.
#[cycle(walk)]
fn fields_miss(entries: &[MapEntry], field: &Field) -> bool
    ensures { (result ≡ true) ↔ FieldsMissPair field.now.key.kind field.now.value.kind entries.now }
{
    for entry in entries {
        match entry {
            MapEntry::Field(other) => {
                if is_same_key(&field.key, &other.key) && !apart(&field.value, &other.value) {
                    return false;
                }
            }
            MapEntry::Pick(_) => {}
            MapEntry::Table(_) => {}
        }
    }
    true
}
