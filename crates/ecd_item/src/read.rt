//! Reading an item.

ghost use Rattle.std.specs.Prelude.{◌≡◌, ℕ, ◌+◌, ◌-◌, ◌<◌, ◌≤◌, List, length, drop, take, IfOk, IfErr, Ok, Err, Option, Some, None};
ghost use Rattle.std.specs.Option.{option_copied};
ghost use Rattle.std.specs.Str.{is_utf8};
ghost use Rattle.ecd_head.specs.Fault.{head_at};
ghost use Rattle.ecd_head.specs.Place.{StandsAt};
ghost use Rattle.ecd_item_laws.specs.Encoding.{encoding};
ghost use Rattle.ecd_item_laws.specs.Valid.{IsWhole};
ghost use Rattle.ecd_item_laws.specs.declared.fault.Cause.{Cause};
ghost use Rattle.ecd_item.specs.declared.fault.ItemFault.TheVariants as ItemFault;
ghost use Rattle.ecd_item_laws.specs.FirstFault.{IsFirstFault, number_of};
ghost use Rattle.ecd_item_laws.specs.declared.item.Item.{Item};
ghost use Rattle.ecd_item.specs.Told.{Answers, Gives, TellsFirstFault, seen};
ghost use Rattle.ecd_item_laws.specs.Reading.{headed, string_at, text_at, many, pairs, item_at, inner_of, layer, behind, parts, is_above, cause_of as cause_meant};

use crate::fault::{ItemFault, Stop, told};
use ecd_head::{Head, HeadFault, read_head};
use ecd_item_laws::{Cause, Fault, Item, Pair};
use ecd_keyorder::{Order, compare};
use ecd_list::{Boxed, ByteList, List};
use std::alloc::Global;
use std::cmp::Ordering;
use std::str;

/// A head's fault as a cause.
fn cause_of(fault: HeadFault) -> Cause
    ensures { result ≡ cause_meant fault }
{
    match fault {
        HeadFault::Short => Cause::Short,
        HeadFault::Reserved => Cause::Reserved,
        HeadFault::Indefinite => Cause::Indefinite,
        HeadFault::NotShortest => Cause::NotShortest,
        HeadFault::Float => Cause::Float,
        HeadFault::BadSimple => Cause::BadSimple,
    }
}

/// The head at a place, and the place behind it.
fn head_of(bytes: &[u8], at: usize) -> Result<(Head, usize), Stop>
    requires { at ≤ length bytes.now }
    ensures gives { Gives (seen bytes.now) result (headed at (drop at bytes.now) (head_at (drop at bytes.now))) }
    ensures simple { IfOk result (λ x. x.0.major ≡ 7 → x.0.arg < 256) }
    ensures within { IfOk result (λ x. x.1 ≤ length bytes.now) }
    ensures after { IfOk result (λ x. at ≤ x.1) }
{
    match read_head(bytes, at) {
        Ok(found) => Ok(found),
        Err(fault) => Err(Stop::Fault(Fault {
            place: at,
            cause: cause_of(fault),
        })),
    }
}

/// The bytes of a string whose head stands at `place`, and the place behind them.
fn string_of(
    alloc: Global,
    bytes: &[u8],
    place: usize,
    count: u64,
    at: usize,
) -> Result<(ByteList, usize), Stop>
    requires { at ≤ length bytes.now }
    ensures gives { Gives (seen bytes.now) result (string_at place count at (drop at bytes.now)) }
    ensures within { IfOk result (λ x. x.1 ≤ length bytes.now) }
    ensures after { IfOk result (λ x. at ≤ x.1) }
{
    if ((bytes.len() - at) as u64) < count {
        return Err(Stop::Fault(Fault {
            place,
            cause: Cause::ShortString,
        }));
    }
    let end = at + count as usize;
    Ok((List::from_slice(alloc, &bytes[at..end])?, end))
}

/// Whether the bytes are UTF-8.
pub(crate) fn is_text(bytes: &[u8]) -> bool
    ensures { result ≡ is_utf8 bytes.now }
{
    str::from_utf8(bytes).is_ok()
}

/// The bytes of a text whose head stands at `place`, and the place behind them.
fn text_of(
    alloc: Global,
    bytes: &[u8],
    place: usize,
    count: u64,
    at: usize,
) -> Result<(ByteList, usize), Stop>
    requires { at ≤ length bytes.now }
    ensures gives { Gives (seen bytes.now) result (text_at place count at (drop at bytes.now)) }
    ensures within { IfOk result (λ x. x.1 ≤ length bytes.now) }
    ensures after { IfOk result (λ x. at ≤ x.1) }
{
    let (text, end) = string_of(alloc, bytes, place, count, at)?;
    if !is_text(text.as_slice()) {
        return Err(Stop::Fault(Fault {
            place,
            cause: Cause::BadUtf8,
        }));
    }
    Ok((text, end))
}

#[cycle(reading)]
#[tactic(auto, unfolding(ecd_item_laws::specs::Reading::item_at, ecd_item_laws::specs::Reading::layer, ecd_item_laws::specs::Reading::inner_of))]
fn item_of(
    alloc: Global,
    order: Order,
    bytes: &[u8],
    at: usize,
    depth: u8,
) -> Result<(Item, usize), Stop>
    requires { at ≤ length bytes.now }
    ensures gives { Gives (seen bytes.now) result (item_at order depth at (drop at bytes.now)) }
    ensures within { IfOk result (λ x. x.1 ≤ length bytes.now) }
    ensures after { IfOk result (λ x. at ≤ x.1) }
{
    let (head, behind) = head_of(bytes, at)?;
    behind_of(alloc, order, bytes, at, head, behind, depth)
}

/// What stands behind a head.
#[cycle(reading)]
#[tactic(auto, unfolding(ecd_item_laws::specs::Reading::behind))]
fn behind_of(
    alloc: Global,
    order: Order,
    bytes: &[u8],
    place: usize,
    head: Head,
    at: usize,
    depth: u8,
) -> Result<(Item, usize), Stop>
    requires place_within { at ≤ length bytes.now }
    requires simple { head.major ≡ 7 → head.arg < 256 }
    ensures gives { Gives (seen bytes.now) result (behind order (inner_of order depth) place head at (drop at bytes.now)) }
    ensures within { IfOk result (λ x. x.1 ≤ length bytes.now) }
    ensures after { IfOk result (λ x. at ≤ x.1) }
{
    match head.major {
        0 => Ok((Item::Uint(head.arg), at)),
        1 => Ok((Item::Nint(head.arg), at)),
        2 => {
            let (bytes, end) = string_of(alloc, bytes, place, head.arg, at)?;
            Ok((Item::Bytes(bytes), end))
        }
        3 => {
            let (text, end) = text_of(alloc, bytes, place, head.arg, at)?;
            Ok((Item::Text(text), end))
        }
        7 => Ok((Item::Simple(head.arg as u8), at)),
        _ => parts_of(alloc, order, bytes, place, head, at, depth),
    }
}

#[cycle(reading)]
#[tactic(auto, unfolding(ecd_item_laws::specs::Reading::parts, ecd_item_laws::specs::Reading::inner_of))]
fn parts_of(
    alloc: Global,
    order: Order,
    bytes: &[u8],
    place: usize,
    head: Head,
    at: usize,
    depth: u8,
) -> Result<(Item, usize), Stop>
    requires { at ≤ length bytes.now }
    ensures gives { Gives (seen bytes.now) result (parts order (inner_of order depth) place head at (drop at bytes.now)) }
    ensures within { IfOk result (λ x. x.1 ≤ length bytes.now) }
    ensures after { IfOk result (λ x. at ≤ x.1) }
{
    if depth == 0 {
        return Err(Stop::Fault(Fault {
            place,
            cause: Cause::TooDeep,
        }));
    }
    if head.major == 4 {
        let (items, end) = items_of(alloc, order, bytes, head.arg, at, depth - 1)?;
        return Ok((Item::Array(items), end));
    }
    if head.major == 5 {
        let (pairs, end) = pairs_of(alloc, order, bytes, head.arg, at, depth - 1)?;
        return Ok((Item::Map(pairs), end));
    }
    let (inner, end) = item_of(alloc, order, bytes, at, depth - 1)?;
    Ok((Item::Tag(head.arg, Boxed::new(alloc, inner)?), end))
}

/// The items of an array.
#[cycle(reading)]
fn items_of(
    alloc: Global,
    order: Order,
    bytes: &[u8],
    count: u64,
    at: usize,
    depth: u8,
) -> Result<(List<Item>, usize), Stop>
    requires { at ≤ length bytes.now }
    ensures gives { Gives (seen bytes.now) result (many (item_at order depth) count at (drop at bytes.now)) }
    ensures within { IfOk result (λ x. x.1 ≤ length bytes.now) }
    ensures after { IfOk result (λ x. at ≤ x.1) }
{
    let mut items = List::new(alloc);
    let mut here = at;
    for _ in 0..count {
        let (item, end) = item_of(alloc, order, bytes, here, depth)?;
        items.push(item)?;
        here = end;
    }
    Ok((items, here))
}

/// The pairs of a map, with keys that ascend in the order.
#[cycle(reading)]
fn pairs_of(
    alloc: Global,
    order: Order,
    bytes: &[u8],
    count: u64,
    at: usize,
    depth: u8,
) -> Result<(List<Pair>, usize), Stop>
    requires { at ≤ length bytes.now }
    ensures gives { Gives (seen bytes.now) result (pairs order (item_at order depth) None count at (drop at bytes.now)) }
    ensures within { IfOk result (λ x. x.1 ≤ length bytes.now) }
    ensures after { IfOk result (λ x. at ≤ x.1) }
{
    let mut pairs = List::new(alloc);
    let mut here = at;
    let mut last: Option<&[u8]> = None;
    for _ in 0..count {
        let (key, key_end) = item_of(alloc, order, bytes, here, depth)?;
        let key_bytes = &bytes[here..key_end];
        if !may_follow(order, last, key_bytes) {
            return Err(Stop::Fault(Fault {
                place: here,
                cause: Cause::KeyOrder,
            }));
        }
        let (value, end) = item_of(alloc, order, bytes, key_end, depth)?;
        pairs.push(Pair { key, value })?;
        last = Some(key_bytes);
        here = end;
    }
    Ok((pairs, here))
}

/// Whether a key may stand behind the last one.
fn may_follow(order: Order, last: Option<&[u8]>, key: &[u8]) -> bool
    ensures { result ≡ is_above order (option_copied last.entry) key.now }
{
    match last {
        None => true,
        Some(before) => compare(order, before, key) == Ordering::Less,
    }
}

/// The item whose encoding stands at a place, of at most this depth, with the keys of its maps in the order, and the place behind it
/// (RFC 8949, sections 3, 4.2.1 and 4.2.3).
///
/// # Errors
///
/// `ItemFault::At` with the first head's place at which something stands against an item, and the number of its `Cause`:
/// at a head 1 to 6; at a string's head 10 where it is longer than what is left, and else 7 where it is a text that is not UTF-8; 9 at the head that passes the depth;
/// 8 at a whole key that is not above the one before it. Or `ItemFault::OutOfMemory`.
pub fn read_item(
    alloc: Global,
    order: Order,
    bytes: &[u8],
    at: usize,
    depth: u8,
) -> Result<(Item, usize), ItemFault>
    requires within { at ≤ length bytes.now }
    requires shallow { depth ≤ 64 }

    // What is read stands there, and what stands there is read.
    ensures found { IfOk result (λ x. IsWhole order depth x.0 × StandsAt bytes.now at (encoding x.0) x.1) }
    ensures only { (item : Item) (end : ℕ) → IsWhole order depth item → StandsAt bytes.now at (encoding item) end → Answers result (Ok (item, end)) }

    // The first fault is named, and where there is one it is.
    ensures fault { IfErr result (TellsFirstFault order depth at (drop at bytes.now)) }
    ensures refused { (place : ℕ) (cause : Cause) → IsFirstFault order depth at (drop at bytes.now) place cause → Answers result (Err (ItemFault.At place (number_of cause))) }
{
    told(item_of(alloc, order, bytes, at, depth))
}
