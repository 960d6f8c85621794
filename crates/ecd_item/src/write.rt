//! Writing an item.

ghost use Rattle.std.specs.Prelude.{◌≡◌, ◌+◌, ◌<◌, ◌≤◌, length, ◌++◌, IfOk, IsErr, OnErr, ◌↔◌};
ghost use Rattle.ecd_head.specs.Head.{head_bytes, IsWritable};
ghost use Rattle.ecd_head.specs.Place.{WritesAt};
ghost use Rattle.ecd_item_laws.specs.Encoding.{encoding, encoded_length};
ghost use Rattle.ecd_item_laws.specs.Valid.{IsWhole};
ghost use Rattle.ecd_item.specs.Valid.{HasEncoding};
ghost use Rattle.ecd_item.specs.Writing.{Emits};

use crate::measure::length_of;
use ecd_head::{Head, NoRoom, put, write_head};
use ecd_item_laws::{Item, Pair};
use ecd_keyorder::Order;

/// Writes a head for which there is room.
pub(crate) fn emit_head(major: u8, arg: u64, into: &mut [u8], at: usize) -> usize
    requires writable { IsWritable major arg }
    requires room { at + length (head_bytes major arg) ≤ length into.old }
    ensures { Emits into.old at (head_bytes major arg) into.new result }
{
    match write_head(Head { major, arg }, into, at) {
        Ok(end) => end,
        Err(_) => unreachable!(),
    }
}

/// Writes a string for which there is room.
fn emit_string(major: u8, bytes: &[u8], into: &mut [u8], at: usize) -> usize
    requires major { major < 7 }
    requires room { at + length (head_bytes major (length bytes.now) ++ bytes.now) ≤ length into.old }
    ensures { Emits into.old at (head_bytes major (length bytes.now) ++ bytes.now) into.new result }
{
    let at = emit_head(major, bytes.len() as u64, into, at);
    match put(bytes, into, at) {
        Ok(end) => end,
        Err(_) => unreachable!(),
    }
}

/// Writes an item for which there is room.
#[cycle(writing)]
#[tactic(auto, using(ecd_item_laws::proofs::Layers::layers))]
fn emit(item: &Item, into: &mut [u8], at: usize) -> usize
    requires valid { HasEncoding item.now }
    requires room { at + length (encoding item.now) ≤ length into.old }
    ensures { Emits into.old at (encoding item.now) into.new result }
{
    match item {
        Item::Uint(n) => emit_head(0, *n, into, at),
        Item::Nint(n) => emit_head(1, *n, into, at),
        Item::Bytes(bytes) => emit_string(2, bytes.as_slice(), into, at),
        Item::Text(bytes) => emit_string(3, bytes.as_slice(), into, at),
        Item::Array(items) => emit_array(items.as_slice(), into, at),
        Item::Map(pairs) => emit_map(pairs.as_slice(), into, at),
        Item::Tag(n, inner) => emit_tag(*n, inner.get(), into, at),
        Item::Simple(n) => emit_head(7, *n as u64, into, at),
    }
}

#[cycle(writing)]
fn emit_tag(number: u64, inner: &Item, into: &mut [u8], at: usize) -> usize
    requires valid { HasEncoding (Item.Tag number inner.now) }
    requires room { at + length (encoding (Item.Tag number inner.now)) ≤ length into.old }
    ensures { Emits into.old at (encoding (Item.Tag number inner.now)) into.new result }
{
    let here = emit_head(6, number, into, at);
    emit(inner, into, here)
}

#[cycle(writing)]
fn emit_array(items: &[Item], into: &mut [u8], at: usize) -> usize
    requires valid { HasEncoding (Item.Array items.now) }
    requires room { at + length (encoding (Item.Array items.now)) ≤ length into.old }
    ensures { Emits into.old at (encoding (Item.Array items.now)) into.new result }
{
    let mut here = emit_head(4, items.len() as u64, into, at);
    for item in items {
        here = emit(item, into, here);
    }
    here
}

#[cycle(writing)]
fn emit_map(pairs: &[Pair], into: &mut [u8], at: usize) -> usize
    requires valid { HasEncoding (Item.Map pairs.now) }
    requires room { at + length (encoding (Item.Map pairs.now)) ≤ length into.old }
    ensures { Emits into.old at (encoding (Item.Map pairs.now)) into.new result }
{
    let mut here = emit_head(5, pairs.len() as u64, into, at);
    for pair in pairs {
        here = emit(&pair.key, into, here);
        here = emit(&pair.value, into, here);
    }
    here
}

/// Writes the encoding of an item that is valid in the order from a place on, where it fits, and answers the place behind it
/// (RFC 8949, sections 3, 4.2.1 and 4.2.3). It takes no memory.
///
/// # Errors
///
/// `NoRoom` exactly where the encoding is longer than the room from the place on; no byte is changed then.
pub fn write_item(order: Order, item: &Item, into: &mut [u8], at: usize) -> Result<usize, NoRoom>
    requires whole { IsWhole order 64 item.now }
    requires within { at ≤ length into.old }
    ensures ok { IfOk result (λ end. WritesAt into.old at (encoding item.now) into.new × (end ≡ at + encoded_length item.now)) }
    ensures full { IsErr result ↔ (length into.old < at + encoded_length item.now) }
    ensures err { OnErr result (into.new ≡ into.old) }
{
    if ((into.len() - at) as u64) < length_of(order, item) {
        return Err(NoRoom);
    }
    Ok(emit(item, into, at))
}
