//! The head of an item and what follows it.

ghost use Rattle.std.specs.Prelude.{◌≡◌};
ghost use Rattle.std.specs.Option.{option_copied};
ghost use Rattle.ecd_item_laws.specs.Parts.{head_of as head_meant, string_in, items_in, pairs_in, enclosed_in};

use ecd_head::Head;
use ecd_item_laws::{Item, Pair};

/// The head of the item's encoding.
#[tactic(auto, using(crate::proofs::Bodies::heads))]
pub(crate) fn head_of(item: &Item) -> Head
    ensures { result ≡ head_meant item.now }
{
    let (major, arg) = match item {
        Item::Uint(n) => (0, *n),
        Item::Nint(n) => (1, *n),
        Item::Bytes(bytes) => (2, bytes.len() as u64),
        Item::Text(bytes) => (3, bytes.len() as u64),
        Item::Array(items) => (4, items.len() as u64),
        Item::Map(pairs) => (5, pairs.len() as u64),
        Item::Tag(n, _) => (6, *n),
        Item::Simple(n) => (7, *n as u64),
    };
    Head { major, arg }
}

/// The bytes of a string.
#[tactic(auto, using(crate::proofs::Bodies::strings))]
pub(crate) fn string_of(item: &Item) -> &[u8]
    ensures { result.now ≡ string_in item.now }
{
    match item {
        Item::Bytes(bytes) => bytes.as_slice(),
        Item::Text(bytes) => bytes.as_slice(),
        Item::Uint(_) => &[],
        Item::Nint(_) => &[],
        Item::Array(_) => &[],
        Item::Map(_) => &[],
        Item::Tag(_, _) => &[],
        Item::Simple(_) => &[],
    }
}

/// The items of an array.
#[tactic(auto, using(crate::proofs::Bodies::arrays))]
pub(crate) fn items_of(item: &Item) -> &[Item]
    ensures { result.now ≡ items_in item.now }
{
    match item {
        Item::Array(items) => items.as_slice(),
        Item::Uint(_) => &[],
        Item::Nint(_) => &[],
        Item::Bytes(_) => &[],
        Item::Text(_) => &[],
        Item::Map(_) => &[],
        Item::Tag(_, _) => &[],
        Item::Simple(_) => &[],
    }
}

/// The pairs of a map.
#[tactic(auto, using(crate::proofs::Bodies::maps))]
pub(crate) fn pairs_of(item: &Item) -> &[Pair]
    ensures { result.now ≡ pairs_in item.now }
{
    match item {
        Item::Map(pairs) => pairs.as_slice(),
        Item::Uint(_) => &[],
        Item::Nint(_) => &[],
        Item::Bytes(_) => &[],
        Item::Text(_) => &[],
        Item::Array(_) => &[],
        Item::Tag(_, _) => &[],
        Item::Simple(_) => &[],
    }
}

/// The item in a tag.
#[tactic(auto, using(crate::proofs::Bodies::tags))]
pub(crate) fn enclosed_by(item: &Item) -> Option<&Item>
    ensures { option_copied result ≡ enclosed_in item.now }
{
    match item {
        Item::Tag(_, inner) => Some(inner.get()),
        Item::Uint(_) => None,
        Item::Nint(_) => None,
        Item::Bytes(_) => None,
        Item::Text(_) => None,
        Item::Array(_) => None,
        Item::Map(_) => None,
        Item::Simple(_) => None,
    }
}
