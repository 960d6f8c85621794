//! Whether an item has an encoding.

ghost use Rattle.std.specs.Prelude.{◌≡◌, ◌<◌, ◌≤◌, ◌⊎◌, ◌↔◌, IsTrue, map};
ghost use Rattle.std.specs.List.{AllByRecursion};
ghost use Rattle.std.specs.Str.{IsUtf8};
ghost use Rattle.ecd_item_laws.specs.Encoding.{key_bytes};
ghost use Rattle.ecd_item_laws.specs.Valid.{Ascend, IsWhole, IsWholePair};

use crate::compare::compare_in;
use crate::read::is_text;
use ecd_item_laws::{Item, Pair};
use ecd_keyorder::Order;

/// Whether the item has an encoding and nests no deeper than `depth`: its texts are UTF-8, the keys of its maps ascend strictly in the order,
/// and its simple values are in range (RFC 8949, sections 3.1, 3.3, 4.2.1, 4.2.3 and 5.6). It takes no memory.
#[cycle(validating)]
pub fn is_valid(order: Order, item: &Item, depth: u8) -> bool
    requires { depth ≤ 64 }
    ensures { IsTrue result ↔ IsWhole order depth item.now }
{
    match item {
        Item::Uint(n) => {
            let _argument = *n;
            true
        }
        Item::Nint(n) => {
            let _argument = *n;
            true
        }
        Item::Bytes(bytes) => {
            let _length = bytes.len();
            true
        }
        Item::Text(bytes) => is_text(bytes.as_slice()),
        Item::Simple(n) => *n < 24 || 32 <= *n,
        Item::Array(items) => 0 < depth && are_valid(order, items.as_slice(), depth - 1),
        Item::Map(pairs) => 0 < depth && are_pairs_valid(order, pairs.as_slice(), depth - 1),
        Item::Tag(number, inner) => {
            let _number = *number;
            0 < depth && is_valid(order, inner.get(), depth - 1)
        }
    }
}

#[cycle(validating)]
fn are_valid(order: Order, items: &[Item], depth: u8) -> bool
    requires { depth ≤ 64 }
    ensures { IsTrue result ↔ AllByRecursion (IsWhole order depth) items.now }
{
    for item in items {
        if !is_valid(order, item, depth) {
            return false;
        }
    }
    true
}

#[cycle(validating)]
fn are_pairs_valid(order: Order, pairs: &[Pair], depth: u8) -> bool
    requires { depth ≤ 64 }
    ensures { IsTrue result ↔ (AllByRecursion (IsWholePair order depth) pairs.now × Ascend order (map key_bytes pairs.now)) }
{
    for pair in pairs {
        if !is_valid(order, &pair.key, depth) {
            return false;
        }
        if !is_valid(order, &pair.value, depth) {
            return false;
        }
    }
    keys_ascend(order, pairs)
}

/// Whether each key's encoding stands before the next one in the order.
fn keys_ascend(order: Order, pairs: &[Pair]) -> bool
    requires { AllByRecursion (IsWholePair order 64) pairs.now }
    ensures { IsTrue result ↔ Ascend order (map key_bytes pairs.now) }
{
    for at in 1..pairs.len() {
        let before = &pairs[at - 1];
        let key = &pairs[at];
        if !compare_in(order, &before.key, &key.key).is_lt() {
            return false;
        }
    }
    true
}
