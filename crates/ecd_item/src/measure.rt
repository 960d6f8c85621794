//! Measuring the encodings of items.

ghost use Rattle.std.specs.Prelude.{◌≡◌, ℕ, ◌+◌, ◌<◌, ◌≤◌, ◌^◌, ◌++◌, min, length, map};
ghost use Rattle.std.specs.Ordering.{nat_cmp};
ghost use Rattle.ecd_head.specs.Head.{head_bytes};
ghost use Rattle.ecd_item_laws.specs.Encoding.{encoding, encoded_length, pair_bytes, joined};
ghost use Rattle.ecd_item_laws.specs.Valid.{depth as depth_of};
ghost use Rattle.ecd_tally.specs.Sums.{IsWide, capacity};

use ecd_item_laws::{Item, Pair};
use ecd_keyorder::Order;
use ecd_tally::{Capped, LIMIT, Tally, Wide};
use std::cmp::Ordering;

/// How many bytes a head with this argument has.
#[tactic(auto, unfolding(ecd_head::specs::Head::head_bytes))]
fn head_length(arg: u64) -> u64
    ensures sized { (major : ℕ) → result ≡ length (head_bytes major arg) }
    ensures small { result < 10 }
{
    if arg < 24 {
        1
    } else if arg < 0x100 {
        2
    } else if arg < 0x1_0000 {
        3
    } else if arg < 0x1_0000_0000 {
        5
    } else {
        9
    }
}

/// Adds the length of a string's encoding.
fn measure_string<T: Tally>(bytes: &[u8], total: &mut T)
    ensures { (major sum : ℕ) → T.counts total.old sum → T.counts total.new (sum + length (head_bytes major (length bytes.now) ++ bytes.now)) }
{
    let count = bytes.len() as u64;
    total.add(head_length(count));
    total.add(count);
}

/// Adds the length of an item's encoding.
#[cycle(measuring)]
fn measure<T: Tally>(item: &Item, total: &mut T)
    ensures { (sum : ℕ) → T.counts total.old sum → T.counts total.new (sum + encoded_length item.now) }
{
    match item {
        Item::Uint(n) => total.add(head_length(*n)),
        Item::Nint(n) => total.add(head_length(*n)),
        Item::Simple(n) => total.add(head_length(*n as u64)),
        Item::Bytes(bytes) => measure_string(bytes.as_slice(), total),
        Item::Text(bytes) => measure_string(bytes.as_slice(), total),
        Item::Array(items) => {
            total.add(head_length(items.len() as u64));
            measure_items(items.as_slice(), total);
        }
        Item::Map(pairs) => {
            total.add(head_length(pairs.len() as u64));
            measure_pairs(pairs.as_slice(), total);
        }
        Item::Tag(n, inner) => {
            total.add(head_length(*n));
            measure(inner.get(), total);
        }
    }
}

#[cycle(measuring)]
fn measure_items<T: Tally>(items: &[Item], total: &mut T)
    ensures { (sum : ℕ) → T.counts total.old sum → T.counts total.new (sum + length (joined (map encoding items.now))) }
{
    for item in items {
        measure(item, total);
    }
}

#[cycle(measuring)]
fn measure_pairs<T: Tally>(pairs: &[Pair], total: &mut T)
    ensures { (sum : ℕ) → T.counts total.old sum → T.counts total.new (sum + length (joined (map pair_bytes pairs.now))) }
{
    for pair in pairs {
        measure(&pair.key, total);
        measure(&pair.value, total);
    }
}

/// The length of the item's encoding, the same in both orders, or 2^63 where it is longer (RFC 8949, section 3). It takes no memory.
pub fn length_of(_order: Order, item: &Item) -> u64
    requires shallow { depth_of item.now ≤ 64 }
    ensures { result ≡ min (encoded_length item.now) (2 ^ 63) }
{
    capped_length(item)
}

/// The length of an item's encoding, or 2^63 where it is longer.
fn capped_length(item: &Item) -> u64
    ensures { result ≡ min (encoded_length item.now) (2 ^ 63) }
{
    let mut length = Capped::new();
    measure(item, &mut length);
    length.total()
}

/// The length of an item's encoding.
fn exact_length(item: &Item) -> Wide
    ensures { IsWide result (encoded_length item.now) }
{
    let mut length = Wide::new();
    measure(item, &mut length);
    length
}

/// Which of two items has the shorter encoding.
pub(crate) fn compare_lengths(one: &Item, other: &Item) -> Ordering
    requires one_fits { encoded_length one.now < capacity }
    requires other_fits { encoded_length other.now < capacity }
    ensures { result ≡ nat_cmp (encoded_length one.now) (encoded_length other.now) }
{
    let length = capped_length(one);
    let other_length = capped_length(other);
    if length < LIMIT || other_length < LIMIT {
        return length.cmp(&other_length);
    }
    exact_length(one).compare(&exact_length(other))
}
