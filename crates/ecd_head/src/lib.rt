//! Heads of CBOR data items, in the shortest form alone: RFC 8949, sections 3 and 4.2.1.
#![tactic(auto)]

ghost use Rattle.std.specs.Prelude.{length, take, drop, IfOk, OnErr, IsErr, Option, Some};
ghost use Rattle.std.specs.Prelude.{◌≡◌, ◌+◌, ◌<◌, ◌≤◌, ℕ, List, ◌↔◌, Ok, Err};
ghost use Rattle.ecd_head.specs.declared.Head.{Head};
ghost use Rattle.ecd_head.specs.declared.HeadFault.{HeadFault};
ghost use Rattle.ecd_head.specs.Head.{IsWritable, head_bytes};
ghost use Rattle.ecd_head.specs.Place.{WritesAt, StandsAt};
ghost use Rattle.ecd_head.specs.Fault.{head_fault, head_at, placed};
ghost use Rattle.ecd_head.specs.Steps.{argument_at, checked, judged};

pub mod laws;

use thiserror::Error;

/// The head of a data item (RFC 8949, section 3).
#[derive(Clone, Copy, Debug, PartialEq, Eq)]
pub struct Head {
    /// The major type, 0 to 7.
    pub major: u8,
    /// The argument: a value, a length in bytes, a count of items or pairs, or a tag number.
    pub arg: u64,
}

/// Why no head stands at a place. The number of each cause is its discriminant. Of several the first that applies is
/// told, in the order of the numbers, but that a float is told before all others.
#[derive(Clone, Copy, Debug, PartialEq, Eq, Error)]
pub enum HeadFault {
    /// No byte is left, or fewer than the first byte asks for (RFC 8949, section 3).
    #[error("the head is cut off")]
    Short = 1,
    /// The additional information is 28, 29 or 30 (section 3).
    #[error("the additional information is reserved")]
    Reserved = 2,
    /// The additional information is 31: an indefinite length or a break (section 3.2).
    #[error("the length is indefinite")]
    Indefinite = 3,
    /// A shorter head holds the argument, of a major type below 7 (section 4.2.1).
    #[error("the argument is not in its shortest form")]
    NotShortest = 4,
    /// A floating-point number (section 3.3).
    #[error("the item is a float")]
    Float = 5,
    /// A simple value below 32 in a byte of its own (section 3.3).
    #[error("the simple value is not well-formed")]
    BadSimple = 6,
}

/// What was to be written is longer than the room that is left.
#[derive(Clone, Copy, Debug, PartialEq, Eq, Error)]
#[error("there is no room for the encoding")]
pub struct NoRoom;

/// The argument that the additional information asks for, and how many bytes it takes.
fn argument(info: u8, rest: &[u8]) -> Result<(u64, usize), HeadFault>
    requires { info < 28 }
    ensures { result ≡ argument_at info rest.now }
{
    if info < 24 {
        return Ok((info as u64, 0));
    }
    if info == 24 {
        if rest.len() < 1 {
            return Err(HeadFault::Short);
        }
        return Ok((rest[0] as u64, 1));
    }
    if info == 25 {
        if rest.len() < 2 {
            return Err(HeadFault::Short);
        }
        return Ok((u16::from_be_bytes([rest[0], rest[1]]) as u64, 2));
    }
    if info == 26 {
        if rest.len() < 4 {
            return Err(HeadFault::Short);
        }
        return Ok((
            u32::from_be_bytes([rest[0], rest[1], rest[2], rest[3]]) as u64,
            4,
        ));
    }
    if rest.len() < 8 {
        return Err(HeadFault::Short);
    }
    Ok((
        u64::from_be_bytes([
            rest[0], rest[1], rest[2], rest[3], rest[4], rest[5], rest[6], rest[7],
        ]),
        8,
    ))
}

/// The head with this argument, if it is in its shortest form and no bad simple value.
#[tactic(auto, unfolding(crate::specs::Steps::checked))]
fn check(major: u8, info: u8, arg: u64, count: usize) -> Result<(Head, usize), HeadFault>
    requires { count < 9 }
    ensures { result ≡ checked major info (arg, count) }
{
    let least: u64 = if info < 24 {
        0
    } else if info == 24 {
        24
    } else if info == 25 {
        0x100
    } else if info == 26 {
        0x1_0000
    } else {
        0x1_0000_0000
    };
    if major < 7 && arg < least {
        return Err(HeadFault::NotShortest);
    }
    if major == 7 && info == 24 && arg < 32 {
        return Err(HeadFault::BadSimple);
    }
    Ok((Head { major, arg }, count + 1))
}

#[tactic(auto, unfolding(crate::specs::Steps::judged))]
fn judge(major: u8, info: u8, rest: &[u8]) -> Result<(Head, usize), HeadFault>
    ensures { result ≡ judged major info rest.now }
{
    if 27 < info {
        if info == 31 {
            return Err(HeadFault::Indefinite);
        }
        return Err(HeadFault::Reserved);
    }
    if major == 7 && 24 < info {
        return Err(HeadFault::Float);
    }
    let (arg, count) = argument(info, rest)?;
    check(major, info, arg, count)
}

/// The head at the front, and how many bytes it has.
fn front(bytes: &[u8]) -> Result<(Head, usize), HeadFault>
    ensures { result ≡ head_at bytes.now }
{
    match bytes {
        [] => Err(HeadFault::Short),
        [first, rest @ ..] => judge(*first / 32, *first % 32, rest),
    }
}

#[tactic(auto, using(crate::proofs::Heads::count_fits))]
fn head_placed(bytes: &[u8], at: usize) -> Result<(Head, usize), HeadFault>
    requires { at ≤ length bytes.now }
    ensures exact { result ≡ placed at (head_at (drop at bytes.now)) }
    ensures within { IfOk result (λ r. r.1 ≤ length bytes.now) }
{
    let (head, count) = front(&bytes[at..])?;
    Ok((head, at + count))
}

/// The head that stands at a place, and the place behind it (RFC 8949, section 3). It takes no memory.
///
/// # Errors
///
/// The first `HeadFault` that applies: `Float` where major type 7 has a width of two, four or eight bytes, whatever
/// follows, and else the one of the least number.
pub fn read_head(bytes: &[u8], at: usize) -> Result<(Head, usize), HeadFault>
    requires { at ≤ length bytes.now }

    // What is read stands there in its shortest form, and a head that stands there is read.
    ensures found { IfOk result (λ r. IsWritable r.0.major r.0.arg × StandsAt bytes.now at (head_bytes r.0.major r.0.arg) r.1) }
    ensures only { (head : Head) (end : ℕ) → IsWritable head.major head.arg → StandsAt bytes.now at (head_bytes head.major head.arg) end → result ≡ Ok (head, end) }
    ensures within { IfOk result (λ r. r.1 ≤ length bytes.now) }

    // A fault is the first cause that applies there.
    ensures fault { (fault : HeadFault) → (result ≡ Err fault) ↔ (head_fault (drop at bytes.now) ≡ Some fault) }
    ensures exact { result ≡ placed at (head_at (drop at bytes.now)) }
{
    head_placed(bytes, at)
}

/// Copies the text into the bytes from a place on, where it fits, and answers the place behind it. It takes no memory.
///
/// # Errors
///
/// `NoRoom` exactly where the text is longer than the room from the place on; no byte is changed then.
pub fn put(text: &[u8], into: &mut [u8], at: usize) -> Result<usize, NoRoom>
    requires { at ≤ length into.old }
    ensures ok { IfOk result (λ end. WritesAt into.old at text.now into.new × (end ≡ at + length text.now)) }
    ensures full { IsErr result ↔ (length into.old < at + length text.now) }
    ensures err { OnErr result (into.new ≡ into.old) }
{
    if into.len() - at < text.len() {
        return Err(NoRoom);
    }
    let end = at + text.len();
    into[at..end].copy_from_slice(text);
    Ok(end)
}

/// Writes the shortest form of a head from a place on, where it fits, and answers the place behind it (RFC 8949, section 3).
/// It takes no memory.
///
/// # Errors
///
/// `NoRoom` exactly where the head is longer than the room from the place on; no byte is changed then.
#[tactic(auto, unfolding(crate::specs::Head::head_bytes))]
pub fn write_head(head: Head, into: &mut [u8], at: usize) -> Result<usize, NoRoom>
    requires writable { IsWritable head.major head.arg }
    requires within { at ≤ length into.old }
    ensures ok { IfOk result (λ end. WritesAt into.old at (head_bytes head.major head.arg) into.new × (end ≡ at + length (head_bytes head.major head.arg))) }
    ensures full { IsErr result ↔ (length into.old < at + length (head_bytes head.major head.arg)) }
    ensures err { OnErr result (into.new ≡ into.old) }
{
    let first = 32 * head.major;
    if head.arg < 24 {
        return put(&[first + head.arg as u8], into, at);
    }
    if head.arg < 0x100 {
        return put(&[first + 24, head.arg as u8], into, at);
    }
    if head.arg < 0x1_0000 {
        let b = (head.arg as u16).to_be_bytes();
        return put(&[first + 25, b[0], b[1]], into, at);
    }
    if head.arg < 0x1_0000_0000 {
        let b = (head.arg as u32).to_be_bytes();
        return put(&[first + 26, b[0], b[1], b[2], b[3]], into, at);
    }
    let b = head.arg.to_be_bytes();
    put(
        &[first + 27, b[0], b[1], b[2], b[3], b[4], b[5], b[6], b[7]],
        into,
        at,
    )
}
