//! The data items that are measured.

ghost use Rattle.std.specs.Prelude.{◌≡◌, ◌<◌, ◌≤◌, ◌^◌, IfOk};
ghost use Rattle.ecd_bench.specs.Sample.{array_of_ones};

use anyhow::Result;
use ecd_item::{Item, OutOfMemory, Pair, PairList};
use ecd_lex::MOST_BYTES;
use ecd_list::ByteList;
use std::alloc::{AllocError, Global};

/// The first byte of an array's head with a count of four bytes (RFC 8949, section 3): major type 4, additional information 26.
const ARRAY_HEAD: u8 = 0x9a;

/// The encoding of an array of so many integers 1.
///
/// # Errors
///
/// `AllocError` where memory runs out.
pub fn array_bytes(alloc: Global, count: u32) -> Result<Vec<u8>, AllocError>
    requires { 2 ^ 16 ≤ count }
    ensures { IfOk result (λ bytes. bytes.items ≡ array_of_ones count) }
{
    let mut bytes = Vec::new(alloc);
    bytes.push(ARRAY_HEAD)?;
    bytes.extend_from_slice(&count.to_be_bytes())?;
    bytes.resize(5 + count as usize, 1)?;
    Ok(bytes)
}

/// The integers 1, 100, 1,000 and 1,000,000, in one, two, three and five bytes (RFC 8949, Appendix A).
const FOUR_WIDTHS: &[u8] = &[
    0x01, 0x18, 0x64, 0x19, 0x03, 0xe8, 0x1a, 0x00, 0x0f, 0x42, 0x40,
];

/// The encoding of an array of four times so many integers, of four widths in turn.
///
/// # Errors
///
/// `AllocError` where memory runs out.
pub fn mixed_bytes(alloc: Global, fours: u32) -> Result<Vec<u8>, AllocError>
    requires { fours < 2 ^ 30 }
{
    let mut bytes = Vec::new(alloc);
    bytes.push(ARRAY_HEAD)?;
    bytes.extend_from_slice(&(4 * fours).to_be_bytes())?;
    for _ in 0..fours {
        bytes.extend_from_slice(FOUR_WIDTHS)?;
    }
    Ok(bytes)
}

/// A map with so many pairs, whose keys are texts of some 20 bytes, in order.
///
/// # Errors
///
/// Where memory runs out.
pub fn worded_map(alloc: Global, count: u32) -> Result<Item> {
    let mut pairs = PairList::new(alloc);
    for number in 0..count {
        let key = format!(in alloc; "measurement {number:08x}")?;
        pairs.push(Pair {
            key: Item::Text(ByteList::from_slice(alloc, key.as_bytes())?),
            value: Item::Uint(0),
        })?;
    }
    Ok(Item::Map(pairs))
}

/// A map with so many pairs: the integers from 0 on, in order, each with the value 0.
///
/// # Errors
///
/// `OutOfMemory` where memory runs out.
pub fn counted_map(alloc: Global, count: u32) -> Result<Item, OutOfMemory> {
    let mut pairs = PairList::new(alloc);
    for key in 0..count {
        pairs.push(Pair {
            key: Item::Uint(u64::from(key)),
            value: Item::Uint(0),
        })?;
    }
    Ok(Item::Map(pairs))
}

/// A text that begins with `first`, has `piece` as often as a schema has room for it, and ends with `last`.
///
/// # Errors
///
/// `AllocError` where memory runs out.
pub fn repeated(alloc: Global, first: &str, piece: &str, last: &str) -> Result<String, AllocError> {
    let room = MOST_BYTES
        .saturating_sub(first.len())
        .saturating_sub(last.len());
    let mut text = String::new(alloc);
    text.push_str(first)?;
    for _ in 0..room.checked_div(piece.len()).unwrap_or(0) {
        text.push_str(piece)?;
    }
    text.push_str(last)?;
    Ok(text)
}

/// A schema of so many rules and one more, each of which uses the one behind it. The last is a group, so all of them are.
///
/// # Errors
///
/// `AllocError` where memory runs out.
pub fn chained_names(alloc: Global, count: u32) -> Result<String, AllocError> {
    let mut text = String::new(alloc);
    text.push_str("a=")?;
    for number in 0..count {
        let rule = format!(in alloc; "n{number:x}\nn{number:x}=")?;
        text.push_str(rule.as_str())?;
    }
    text.push_str("(5,5)\n")?;
    Ok(text)
}
