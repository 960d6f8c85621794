//! One case.

ghost use Rattle.std.specs.Prelude.{◌≡◌, ◌↔◌, ◌≤◌, ◌<◌, ◌^◌, true, IfOk, IfSome, length};
ghost use Rattle.ecd_judge.specs.declared.refusal.Refusal.{Refusal};
ghost use Rattle.ecd_vectors.specs.Passing.{Passes, IsWithin};
ghost use Rattle.ecd_vectors.specs.Steps.{IsDecoded, IsOfCase};

use ecd_compile::{Compiled, Refusal, compile};
use ecd_keyorder::Order;
use ecd_lex::MOST_BYTES;
use ecd_list::OutOfMemory;
use ecd_reader::consumed;
use hex::FromHexError;
use std::alloc::Global;

/// A schema (RFC 8610), and how many of some bytes its reader takes, which is compiled for the bytewise order of keys.
#[derive(Clone, Copy, Debug)]
pub struct Case {
    /// The schema's text.
    pub schema: &'static str,
    /// The name of the root.
    pub root: &'static str,
    /// How deep the items that `any` holds may be.
    pub depth: u8,
    /// The bytes, in hexadecimal digits.
    pub bytes: &'static str,
    /// How many of them the reader takes, or 0 where it refuses them.
    pub consumed: u64,
}

/// The most hexadecimal digits of a case.
const MOST_DIGITS: usize = 33_554_432;

/// The bytes of a case's digits. None where they are no hexadecimal text.
fn bytes_of(alloc: Global, digits: &str) -> Result<Option<Vec<u8>>, OutOfMemory>
    requires { length digits.now ≤ MOST_DIGITS }
    ensures bytes { IfOk result (λ found. IsDecoded digits.now found) }
    ensures few { IfOk result (λ found. IfSome found (λ bytes. length bytes.items < 2 ^ 62)) }
{
    match hex::decode(alloc, digits) {
        Ok(bytes) => Ok(Some(bytes)),
        Err(FromHexError::OutOfMemory) => Err(OutOfMemory),
        Err(_) => Ok(None),
    }
}

/// Whether memory was wanting.
fn wants_memory(refusal: Refusal) -> bool
    ensures { (result ≡ true) ↔ (refusal ≡ Refusal.OutOfMemory) }
{
    matches!(refusal, Refusal::OutOfMemory)
}

/// The case's compiled schema. None where it is refused.
fn compiled_of(alloc: Global, case: &Case) -> Result<Option<Compiled>, OutOfMemory>
    requires shallow { case.now.depth ≤ 32 }
    requires short { length case.now.schema.now ≤ MOST_BYTES }
    ensures { IfOk result (λ found. IsOfCase case.now found) }
{
    match compile(
        alloc,
        case.schema.as_bytes(),
        case.root,
        case.depth,
        Order::Bytewise,
    ) {
        Ok(compiled) => Ok(Some(compiled)),
        Err(refusal) if wants_memory(refusal) => Err(OutOfMemory),
        Err(_) => Ok(None),
    }
}

/// Whether the case is within the limits.
fn is_within(case: &Case) -> bool
    ensures { (result ≡ true) ↔ IsWithin case.now }
{
    case.depth <= 32 && case.schema.len() <= MOST_BYTES && case.bytes.len() <= MOST_DIGITS
}

/// Whether the case passes. One whose schema is refused or longer than 262,144 bytes, whose depth is above 32, or whose bytes are
/// no hexadecimal text or have more than 33,554,432 digits does not.
pub(crate) fn passes(alloc: Global, case: &Case) -> Result<bool, OutOfMemory>
    ensures { IfOk result (λ v. (v ≡ true) ↔ Passes case.now) }
{
    if !is_within(case) {
        return Ok(false);
    }
    let Some(bytes) = bytes_of(alloc, case.bytes)? else {
        return Ok(false);
    };
    let Some(compiled) = compiled_of(alloc, case)? else {
        return Ok(false);
    };
    let taken = consumed(alloc, &compiled.program, bytes.as_slice())?;
    Ok(taken == case.consumed)
}
