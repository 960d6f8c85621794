//! Reading a file whole, up to a limit, and writing bytes whole.

ghost use Rattle.std.specs.Prelude.{◌≡◌, ◌≤◌, ◌+◌, ℕ, List, length, OnOk, OnErr, IfOk, IsErrOf, true, vec_len};
ghost use Rattle.std.specs.Io.KnownBytes.{append_known};
ghost use Rattle.ecd_outside.specs.Causes.{Rose};
ghost use Rattle.ecd_outside.specs.Told.{IsContents, IsLonger, IsTaken, TakesAtMost, TakesExactly, MayFail, AppendsFront};

use crate::traits::{Failed, Files, Sink};
use ecd_list::ByteList;
use std::alloc::Global;
use thiserror::Error;

/// Why a file was not read whole.
#[derive(Clone, Copy, Debug, PartialEq, Eq, Error)]
pub enum ReadRefusal {
    /// The file could not be begun or read.
    #[error("read fault")]
    Fault,
    /// The file has more bytes than the limit.
    #[error("too large")]
    TooLarge,
    /// Want of memory.
    #[error("out of memory")]
    OutOfMemory,
}

/// The most bytes that one read asks for.
const CHUNK: usize = 4096;

/// Appends the next bytes of the file that is begun, at most `spare + 1`, and answers their number: 0 at its end.
fn read_more<F: Files>(
    files: &mut F,
    bytes: &mut Vec<u8>,
    spare: usize,
) -> Result<usize, ReadRefusal>
    requires { F.begun files.old ≡ true }
    ensures begun { F.begun files.new ≡ true }
    ensures told { F.told files.new ≡ F.told files.old }
    ensures later { F.faults files.old ≤ F.faults files.new }
    ensures fault { IsErrOf result ReadRefusal.Fault → Rose (F.faults files.old) (F.faults files.new) }
    ensures large { IsErrOf result ReadRefusal.TooLarge → ⊥ }
    ensures grows { IfOk result (λ count. vec_len bytes.new ≡ vec_len bytes.old + count) }
    ensures bound { IfOk result (λ count. count ≤ spare + 1) }
    ensures taken { (name : List ℕ) → IsTaken (F.told files.old) name bytes.old.items (F.left files.old)
        → OnOk result (IsTaken (F.told files.old) name bytes.new.items (F.left files.new)) }
    ensures most { (name : List ℕ) → IsTaken (F.told files.old) name bytes.old.items (F.left files.old)
        → TakesAtMost (F.told files.old) name (F.left files.new) (vec_len bytes.old + spare + 1) }
    ensures ends { (name : List ℕ) → IsTaken (F.told files.old) name bytes.old.items (F.left files.old)
        → IfOk result (λ count. count ≡ 0 → IsContents (F.told files.old) name bytes.new.items) }
{
    let mut chunk = [0u8; CHUNK];
    let room = spare.min(CHUNK - 1) + 1;
    match files.read(&mut chunk[..room]) {
        Ok(count) => match bytes.extend_from_slice(&chunk[..count]) {
            Ok(()) => Ok(count),
            Err(_) => Err(ReadRefusal::OutOfMemory),
        },
        Err(_) => Err(ReadRefusal::Fault),
    }
}

/// The contents of the file of that name, where they have at most `limit` bytes. Since the file was begun last, at most one byte
/// more is taken.
///
/// # Errors
///
/// `Fault` where the file could not be begun or read: only where the count of faults rose, or stands at its last
/// value, or contents are told and no file has the name. `TooLarge` where it has more bytes than the limit; then it is
/// begun, and exactly one byte more than the limit is taken.
pub fn read_file<F: Files>(
    alloc: Global,
    files: &mut F,
    name: &str,
    limit: usize,
) -> Result<ByteList, ReadRefusal>
    ensures contents { IfOk result (λ bytes. IsContents (F.told files.old) name.now bytes) }
    ensures within { IfOk result (λ bytes. length bytes ≤ limit) }
    ensures fault { IsErrOf result ReadRefusal.Fault
        → MayFail (F.told files.old) name.now (F.faults files.old) (F.faults files.new) }
    ensures large { IsErrOf result ReadRefusal.TooLarge → IsLonger (F.told files.old) name.now limit }
    ensures stops { IsErrOf result ReadRefusal.TooLarge → (F.begun files.new ≡ true) × TakesExactly (F.told files.old) name.now (F.left files.new) (limit + 1) }
    ensures most { F.begun files.new ≡ true → TakesAtMost (F.told files.old) name.now (F.left files.new) (limit + 1) }
    ensures told { F.told files.new ≡ F.told files.old }
    ensures later { F.faults files.old ≤ F.faults files.new }
{
    if files.begin(name).is_err() {
        return Err(ReadRefusal::Fault);
    }
    let mut bytes = Vec::new(alloc);
    while bytes.len() <= limit {
        let spare = limit - bytes.len();
        if read_more(files, &mut bytes, spare)? == 0 {
            return Ok(ByteList::from_vec(bytes));
        }
    }
    Err(ReadRefusal::TooLarge)
}

/// Writes all of the bytes.
///
/// # Errors
///
/// `Failed` only where the count of faults rose, or stands at its last value. A front of the bytes is written then.
pub fn put_all<S: Sink>(sink: &mut S, bytes: &[u8]) -> Result<(), Failed>
    ensures all { OnOk result (S.written sink.new ≡ append_known (S.written sink.old) bytes.now) }
    ensures front { AppendsFront (S.written sink.old) bytes.now (S.written sink.new) }
    ensures later { S.faults sink.old ≤ S.faults sink.new }
    ensures cause { OnErr result (Rose (S.faults sink.old) (S.faults sink.new)) }
{
    let mut rest = bytes;
    while !rest.is_empty() {
        let count = sink.put(rest)?;
        let (_, after) = rest.split_at(count);
        rest = after;
    }
    Ok(())
}
