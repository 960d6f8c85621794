//! Shapes that hold others, compared part by part.
//!
//! The recursion is as deep as the first shape nests. It takes no memory, and looks at each node of the first shape at most once.

ghost use Rattle.std.specs.Prelude.{◌≡◌, ◌↔◌, true};
ghost use Rattle.ecd_shape_rules.specs.Alike.{IsAlike, PartAlike, EntryAlike};
ghost use Rattle.ecd_alike.specs.Pairs.{ShapesMatch, PartsMatch, WaysMatch, EntriesMatch, FieldsMatch, TablesMatch, MapWaysMatch};

use crate::leaf::is_same_leaf;
use ecd_core::{Field, Kind, MapEntry, MapWay, Part, Shape, Table, Way};

/// Whether two shapes are equal but for their places in the schema. It takes no memory.
#[cycle(alike)]
pub fn is_alike(a: &Shape, b: &Shape) -> bool
    ensures { (result ≡ true) ↔ IsAlike a.now.kind b.now.kind }
{
    match &a.kind {
        Kind::Tag(n, x) => match &b.kind {
            Kind::Tag(m, y) => {
                if *n != *m {
                    return false;
                }
                is_alike(x.get(), y.get())
            }
            _ => false,
        },
        Kind::AnyTag(x) => match &b.kind {
            Kind::AnyTag(y) => is_alike(x.get(), y.get()),
            _ => false,
        },
        Kind::Cbor(x) => match &b.kind {
            Kind::Cbor(y) => is_alike(x.get(), y.get()),
            _ => false,
        },
        Kind::Choice(xs) => match &b.kind {
            Kind::Choice(ys) => shapes_alike(xs.as_slice(), ys.as_slice()),
            _ => false,
        },
        Kind::Array(x) => match &b.kind {
            Kind::Array(y) => parts_alike(x.parts.as_slice(), y.parts.as_slice()),
            _ => false,
        },
        Kind::Map(xs) => match &b.kind {
            Kind::Map(ys) => entries_alike(xs.as_slice(), ys.as_slice()),
            _ => false,
        },
        _ => is_same_leaf(a, b),
    }
}

/// Whether the alternatives are equal but for their places, one by one.
#[cycle(alike)]
fn shapes_alike(a: &[Shape], b: &[Shape]) -> bool
    ensures { (result ≡ true) ↔ ShapesMatch a.now b.now }
{
    if a.len() != b.len() {
        return false;
    }
    for (index, shape) in a.iter().enumerate() {
        if !is_alike(shape, &b[index]) {
            return false;
        }
    }
    true
}

/// Whether the parts are equal but for their places, one by one.
#[cycle(alike)]
fn parts_alike(a: &[Part], b: &[Part]) -> bool
    ensures { (result ≡ true) ↔ PartsMatch a.now b.now }
{
    if a.len() != b.len() {
        return false;
    }
    for (index, part) in a.iter().enumerate() {
        if !part_alike(part, &b[index]) {
            return false;
        }
    }
    true
}

/// Whether two parts are equal but for their places.
#[cycle(alike)]
fn part_alike(a: &Part, b: &Part) -> bool
    ensures { (result ≡ true) ↔ PartAlike a.now b.now }
{
    match a {
        Part::One(x) => match b {
            Part::One(y) => is_alike(x, y),
            _ => false,
        },
        Part::Opt { body: x, .. } => match b {
            Part::Opt { body: y, .. } => parts_alike(x.parts.as_slice(), y.parts.as_slice()),
            _ => false,
        },
        Part::Many {
            lo,
            hi,
            body: x,
            ..
        } => match b {
            Part::Many {
                lo: least,
                hi: most,
                body: y,
                ..
            } => {
                if *lo != *least {
                    return false;
                }
                if *hi != *most {
                    return false;
                }
                parts_alike(x.parts.as_slice(), y.parts.as_slice())
            }
            _ => false,
        },
        Part::Alt { ways: x, .. } => match b {
            Part::Alt { ways: y, .. } => ways_alike(x.as_slice(), y.as_slice()),
            _ => false,
        },
    }
}

/// Whether the ways are equal but for their places, one by one.
#[cycle(alike)]
fn ways_alike(a: &[Way], b: &[Way]) -> bool
    ensures { (result ≡ true) ↔ WaysMatch a.now b.now }
{
    if a.len() != b.len() {
        return false;
    }
    for (index, way) in a.iter().enumerate() {
        if !parts_alike(way.body.parts.as_slice(), b[index].body.parts.as_slice()) {
            return false;
        }
    }
    true
}

/// Whether the entries are equal but for their places, one by one.
#[cycle(alike)]
fn entries_alike(a: &[MapEntry], b: &[MapEntry]) -> bool
    ensures { (result ≡ true) ↔ EntriesMatch a.now b.now }
{
    if a.len() != b.len() {
        return false;
    }
    for (index, entry) in a.iter().enumerate() {
        if !entry_alike(entry, &b[index]) {
            return false;
        }
    }
    true
}

/// Whether two entries are equal but for their places.
#[cycle(alike)]
fn entry_alike(a: &MapEntry, b: &MapEntry) -> bool
    ensures { (result ≡ true) ↔ EntryAlike a.now b.now }
{
    match a {
        MapEntry::Field(x) => match b {
            MapEntry::Field(y) => fields_alike(x, y),
            _ => false,
        },
        MapEntry::Pick(x) => match b {
            MapEntry::Pick(y) => {
                if x.needed != y.needed {
                    return false;
                }
                map_ways_alike(x.ways.as_slice(), y.ways.as_slice())
            }
            _ => false,
        },
        MapEntry::Table(x) => match b {
            MapEntry::Table(y) => tables_alike(x, y),
            _ => false,
        },
    }
}

/// Whether two fields are equal but for their places.
#[cycle(alike)]
fn fields_alike(a: &Field, b: &Field) -> bool
    ensures { (result ≡ true) ↔ FieldsMatch a.now b.now }
{
    if a.cut != b.cut {
        return false;
    }
    if a.lo != b.lo {
        return false;
    }
    if !is_alike(&a.key, &b.key) {
        return false;
    }
    is_alike(&a.value, &b.value)
}

/// Whether two tables are equal but for their places.
#[cycle(alike)]
fn tables_alike(a: &Table, b: &Table) -> bool
    ensures { (result ≡ true) ↔ TablesMatch a.now b.now }
{
    if a.lo != b.lo {
        return false;
    }
    if a.hi != b.hi {
        return false;
    }
    if !is_alike(&a.key, &b.key) {
        return false;
    }
    is_alike(&a.value, &b.value)
}

/// Whether the ways of two picks are equal but for their places, one by one.
#[cycle(alike)]
fn map_ways_alike(a: &[MapWay], b: &[MapWay]) -> bool
    ensures { (result ≡ true) ↔ MapWaysMatch a.now b.now }
{
    if a.len() != b.len() {
        return false;
    }
    for (index, way) in a.iter().enumerate() {
        if !entries_alike(way.entries.as_slice(), b[index].entries.as_slice()) {
            return false;
        }
    }
    true
}
