//! Comparing the encodings of items without building them.

ghost use Rattle.std.specs.Prelude.{◌≡◌, ◌+◌, length, map};
ghost use Rattle.ecd_head.specs.Head.{head_bytes, IsWritable};
ghost use Rattle.ecd_keyorder.specs.Order.{comparison};
ghost use Rattle.ecd_keyorder.specs.declared.Order.TheVariants.{Bytewise};
ghost use Rattle.ecd_item_laws.specs.Encoding.{encoding, pair_bytes, joined};
ghost use Rattle.ecd_item_laws.specs.Valid.{IsWhole};
ghost use Rattle.ecd_item.specs.Valid.{HaveEncodings, ItemsHaveEncodings, PairsHaveEncodings};

use crate::measure::compare_lengths;
use crate::parts::{enclosed_by, head_of, items_of, pairs_of, string_of};
use crate::write::emit_head;
use ecd_head::Head;
use ecd_item_laws::{Item, Pair};
use ecd_keyorder::{Order, compare};
use std::cmp::Ordering;

/// The most bytes that a head has.
const MOST_HEAD_BYTES: usize = 9;

/// Which of two heads comes first in the bytewise order.
fn compare_heads(one: Head, other: Head) -> Ordering
    requires one_writable { IsWritable one.major one.arg }
    requires other_writable { IsWritable other.major other.arg }
    ensures { result ≡ comparison Bytewise (head_bytes one.major one.arg) (head_bytes other.major other.arg) }
{
    let mut one_bytes = [0; MOST_HEAD_BYTES];
    let mut other_bytes = [0; MOST_HEAD_BYTES];
    let one_end = emit_head(one.major, one.arg, &mut one_bytes, 0);
    let other_end = emit_head(other.major, other.arg, &mut other_bytes, 0);
    compare(
        Order::Bytewise,
        &one_bytes[..one_end],
        &other_bytes[..other_end],
    )
}

/// Which of two items' encodings comes first in the order. It takes no memory.
pub(crate) fn compare_in(order: Order, one: &Item, other: &Item) -> Ordering
    requires one_whole { IsWhole order 64 one.now }
    requires other_whole { IsWhole order 64 other.now }
    ensures { result ≡ comparison order (encoding one.now) (encoding other.now) }
{
    match order {
        Order::Bytewise => compare_encodings(one, other),
        Order::LengthFirst => {
            let lengths = compare_lengths(one, other);
            if lengths.is_ne() {
                return lengths;
            }
            compare_encodings(one, other)
        }
    }
}

/// Which of two items' encodings comes first in the bytewise order.
#[cycle(comparing)]
fn compare_encodings(one: &Item, other: &Item) -> Ordering
    requires { HaveEncodings one.now other.now }
    ensures { result ≡ comparison Bytewise (encoding one.now) (encoding other.now) }
{
    let heads = compare_heads(head_of(one), head_of(other));
    if heads.is_ne() {
        return heads;
    }
    match one {
        Item::Uint(_) => Ordering::Equal,
        Item::Nint(_) => Ordering::Equal,
        Item::Simple(_) => Ordering::Equal,
        Item::Bytes(bytes) => compare(Order::Bytewise, bytes.as_slice(), string_of(other)),
        Item::Text(bytes) => compare(Order::Bytewise, bytes.as_slice(), string_of(other)),
        Item::Array(items) => compare_items(items.as_slice(), items_of(other)),
        Item::Map(pairs) => compare_pairs(pairs.as_slice(), pairs_of(other)),
        Item::Tag(_, inner) => match enclosed_by(other) {
            Some(enclosed) => compare_encodings(inner.get(), enclosed),
            None => Ordering::Equal,
        },
    }
}

#[cycle(comparing)]
fn compare_items(some: &[Item], others: &[Item]) -> Ordering
    requires as_many { length some.now ≡ length others.now }
    requires valid { ItemsHaveEncodings some.now others.now }
    ensures { result ≡ comparison Bytewise (joined (map encoding some.now)) (joined (map encoding others.now)) }
{
    for (at, item) in some.iter().enumerate() {
        let order = compare_encodings(item, &others[at]);
        if order.is_ne() {
            return order;
        }
    }
    Ordering::Equal
}

#[cycle(comparing)]
fn compare_pairs(some: &[Pair], others: &[Pair]) -> Ordering
    requires as_many { length some.now ≡ length others.now }
    requires valid { PairsHaveEncodings some.now others.now }
    ensures { result ≡ comparison Bytewise (joined (map pair_bytes some.now)) (joined (map pair_bytes others.now)) }
{
    for (at, pair) in some.iter().enumerate() {
        let other = &others[at];
        let keys = compare_encodings(&pair.key, &other.key);
        if keys.is_ne() {
            return keys;
        }
        let values = compare_encodings(&pair.value, &other.value);
        if values.is_ne() {
            return values;
        }
    }
    Ordering::Equal
}
