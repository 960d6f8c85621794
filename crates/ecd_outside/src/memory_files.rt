//! Files that are held in memory.

ghost use Rattle.std.specs.Prelude.{◌≡◌, ◌<◌, ◌≤◌, ◌+◌, ◌^◌, ◌++◌, ◌↔◌, min, length, take, drop, position, [], true, false, is_some, Some, None, Ok, IsOk, IsErr, OnOk, OnErr, IfOk, IsSome, MatchOption};
ghost use Rattle.std.specs.Str.{bytes_eq};
ghost use Rattle.std.specs.Io.KnownBytes.{prepend_known};
ghost use Rattle.ecd_outside.specs.Causes.{Rose};
ghost use Rattle.ecd_outside.specs.Told.{IsTaken, IsNoneAtEnd, MayFail};
ghost use Rattle.ecd_outside.specs.Memory.{contents_in, left_at, left_bytes, read_count, IsToFail, counted, failed};

use crate::plan::CallPlan;
use crate::stored::{CallList, FileList, StoredFile};
use crate::traits::{Failed, Files};
use std::marker::Model;

/// The file begun last: its number, from 0, and how many of its bytes were taken.
#[derive(Clone, Copy, Debug)]
struct Place {
    file: usize,
    taken: usize,
}

/// Files that are held in memory, of which chosen calls fail. All is told. Of two files of one name the first counts.
#[derive(Debug, Drop)]
pub struct MemoryFiles {
    files: FileList,
    plan: CallPlan,
    begun: Option<Place>,
}

impl Model for MemoryFiles {
    ghost use Rattle.std.specs.Option.{option_map};
    ghost use Rattle.ecd_outside.specs.Memory.{FilesShown, left_at};

    ghost Value = { FilesShown };

    ghost view = { λ m. record {
      files = m.files;
      plan = m.plan;
      left = option_map (λ place. left_at m.files place.file place.taken) m.begun;
    } };
}

/// The number of the first file of that name.
fn first_named(files: &[StoredFile], name: &[u8]) -> Option<usize>
    ensures { result ≡ position (λ file. bytes_eq file.name name.now) files.now }
{
    files.iter().position(|file| file.name.as_slice() == name)
}

/// The number of the file of that name, which has the name's contents.
fn number_of(files: &[StoredFile], name: &[u8]) -> Option<usize>
    ensures { MatchOption result (contents_in files.now name.now ≡ None)
        (λ number. contents_in files.now name.now ≡ Some (left_at files.now number 0)) }
{
    first_named(files, name)
}

/// The bytes from that place on.
fn bytes_left(files: &[StoredFile], place: Place) -> &[u8]
    ensures bytes { result.now ≡ left_at files.now place.file place.taken }
    ensures fits { place.taken + length result.now < 2 ^ 64 }
{
    match files.get(place.file) {
        Some(file) => file.contents.as_slice().get(place.taken..).unwrap_or(&[]),
        None => &[],
    }
}

/// Copies bytes from that place on into the front of `into`, as many as there are and have room, and answers their number.
fn copy_left(files: &[StoredFile], place: Place, into: &mut [u8]) -> usize
    ensures count { result ≡ min (length into.old) (length (left_at files.now place.file place.taken)) }
    ensures given { into.new ≡ take result (left_at files.now place.file place.taken) ++ drop result into.old }
    ensures fits { place.taken + result < 2 ^ 64 }
    ensures moved { left_at files.now place.file (place.taken + result) ≡ drop result (left_at files.now place.file place.taken) }
    ensures bytes { left_at files.now place.file place.taken ≡ take result into.new ++ left_at files.now place.file (place.taken + result) }
    ensures end { 0 < length into.old → ((result ≡ 0) ↔ (left_at files.now place.file place.taken ≡ [])) }
{
    let left = bytes_left(files, place);
    let count = into.len().min(left.len());
    into[..count].copy_from_slice(&left[..count]);
    count
}

impl MemoryFiles {
    /// Files of which the calls with these numbers, from 0, fail: those of `begin` and `read`, counted together.
    pub fn new(files: FileList, fails: CallList) -> MemoryFiles
        ensures { result ≡ record { files = files; plan = record { fails = fails; calls = 0; faults = 0 }; left = None } }
    {
        MemoryFiles {
            files,
            plan: CallPlan::new(fails),
            begun: None,
        }
    }

    /// The calls so far, and the faults.
    pub fn plan(&self) -> &CallPlan
        ensures { result.now ≡ self.now.plan }
    {
        &self.plan
    }
}

impl Files for MemoryFiles {
    ghost use Rattle.std.specs.Prelude.{Some, is_some};
    ghost use Rattle.ecd_outside.specs.Memory.{contents_in};

    ghost told = { λ m. Some (contents_in m.files) };

    ghost left = { λ m. m.left };

    ghost begun = { λ m. is_some m.left };

    ghost faults = { λ m. m.plan.faults };

    fn begin(&mut self, name: &str) -> Result<(), Failed>
        ensures missing { contents_in self.old.files name.now ≡ None
            → IsErr result × (self.new ≡ record self.old { plan = counted self.old.plan; left = None }) }
        ensures to_fail { IsSome (contents_in self.old.files name.now) → IsToFail self.old.plan
            → IsErr result × (self.new ≡ record self.old { plan = failed self.old.plan; left = None }) }
        ensures begins { IsSome (contents_in self.old.files name.now) → ¬ IsToFail self.old.plan
            → IsOk result × (self.new ≡ record self.old { plan = counted self.old.plan; left = contents_in self.old.files name.now }) }

        // What every `begin` of `Files` keeps.
        ensures begun { OnOk result (is_some self.new.left ≡ true) }
        ensures none { OnErr result (is_some self.new.left ≡ false) }
        ensures left { OnOk result (IsTaken (Some (contents_in self.old.files)) name.now [] self.new.left) }
        ensures same { self.new.files ≡ self.old.files }
        ensures later { self.old.plan.faults ≤ self.new.plan.faults }
        ensures cause { OnErr result (MayFail (Some (contents_in self.old.files)) name.now self.old.plan.faults self.new.plan.faults) }
    {
        self.begun = None;
        let Some(file) = number_of(self.files.as_slice(), name.as_bytes()) else {
            self.plan.count_call();
            return Err(Failed);
        };
        if self.plan.fails_now() {
            return Err(Failed);
        }
        self.begun = Some(Place { file, taken: 0 });
        Ok(())
    }

    fn read(&mut self, into: &mut [u8]) -> Result<usize, Failed>
        requires { IsSome self.old.left }
        ensures to_fail { IsToFail self.old.plan → IsErr result × (self.new ≡ record self.old { plan = failed self.old.plan }) }
        ensures count { ¬ IsToFail self.old.plan → result ≡ Ok (read_count self.old into.old) }
        ensures given { ¬ IsToFail self.old.plan
            → into.new ≡ take (read_count self.old into.old) (left_bytes self.old) ++ drop (read_count self.old into.old) into.old }
        ensures moved { ¬ IsToFail self.old.plan
            → self.new ≡ record self.old { plan = counted self.old.plan; left = Some (drop (read_count self.old into.old) (left_bytes self.old)) } }

        // What every `read` of `Files` keeps.
        ensures bound { IfOk result (λ count. count ≤ length into.new) }
        ensures bytes { IfOk result (λ count. self.old.left ≡ prepend_known (take count into.new) self.new.left) }
        ensures end { 0 < length into.old → IfOk result (IsNoneAtEnd self.old.left) }
        ensures kept { OnErr result (self.new.left ≡ self.old.left) }
        ensures begun { is_some self.new.left ≡ true }
        ensures same { self.new.files ≡ self.old.files }
        ensures later { self.old.plan.faults ≤ self.new.plan.faults }
        ensures cause { OnErr result (Rose self.old.plan.faults self.new.plan.faults) }
    {
        if self.plan.fails_now() {
            return Err(Failed);
        }
        let Some(place) = self.begun else {
            unreachable!()
        };
        let count = copy_left(self.files.as_slice(), place, into);
        self.begun = Some(Place {
            file: place.file,
            taken: place.taken + count,
        });
        Ok(count)
    }
}
