//! Keys of fields.

ghost use Rattle.std.specs.Prelude.{◌≡◌, ◌↔◌, ◌<◌, ◌≤◌, ◌⊎◌, true};
ghost use Rattle.std.specs.Str.{IsUtf8};
ghost use Rattle.ecd_apart.specs.Keys.{IsSameKey};
ghost use Rattle.ecd_disjoint.specs.Misses.{CutAmong};

use ecd_core::{Kind, MapEntry, Shape};
use std::str;

/// Whether two ranges hold one number each, and the same.
fn is_one_number(lo: u64, hi: u64, least: u64, most: u64) -> bool
    ensures { (result ≡ true) ↔ ((lo ≡ hi) × ((least ≡ most) × (lo ≡ least))) }
{
    if lo != hi {
        return false;
    }
    if least != most {
        return false;
    }
    lo == least
}

/// Whether two texts are the same, and UTF-8.
fn is_one_text(bytes: &[u8], others: &[u8]) -> bool
    ensures { (result ≡ true) ↔ ((bytes.now ≡ others.now) × IsUtf8 bytes.now) }
{
    if bytes != others {
        return false;
    }
    str::from_utf8(bytes).is_ok()
}

/// Whether two simple values are the same, and one that there is (RFC 8949, section 3.3).
fn is_one_simple(value: u8, other: u8) -> bool
    ensures { (result ≡ true) ↔ ((value ≡ other) × ((value < 24) ⊎ (32 ≤ value))) }
{
    if value != other {
        return false;
    }
    value < 24 || value >= 32
}

/// Whether the shapes of two keys are literals of one item. It takes no memory.
pub fn is_same_key(first: &Shape, second: &Shape) -> bool
    ensures { (result ≡ true) ↔ IsSameKey first.now.kind second.now.kind }
{
    match &first.kind {
        Kind::Uint { lo, hi } => match &second.kind {
            Kind::Uint {
                lo: least,
                hi: most,
            } => is_one_number(*lo, *hi, *least, *most),
            _ => false,
        },
        Kind::Nint { lo, hi } => match &second.kind {
            Kind::Nint {
                lo: least,
                hi: most,
            } => is_one_number(*lo, *hi, *least, *most),
            _ => false,
        },
        Kind::BytesIs(bytes) => match &second.kind {
            Kind::BytesIs(others) => bytes.as_slice() == others.as_slice(),
            _ => false,
        },
        Kind::TextIs(bytes) => match &second.kind {
            Kind::TextIs(others) => is_one_text(bytes.as_slice(), others.as_slice()),
            _ => false,
        },
        Kind::Simple(value) => match &second.kind {
            Kind::Simple(other) => is_one_simple(*value, *other),
            _ => false,
        },
        _ => false,
    }
}

/// Whether a plain field of this key has a cut (RFC 8610, section 3.5.4).
pub(crate) fn has_cut(entries: &[MapEntry], key: &Shape) -> bool
    ensures { (result ≡ true) ↔ CutAmong entries.now key.now.kind }
{
    for entry in entries {
        match entry {
            MapEntry::Field(field) => {
                if field.cut && is_same_key(key, &field.key) {
                    return true;
                }
            }
            MapEntry::Pick(_) => {}
            MapEntry::Table(_) => {}
        }
    }
    false
}
