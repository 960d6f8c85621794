//! A sink that is held in memory.

ghost use Rattle.std.specs.Prelude.{◌≡◌, ◌<◌, ◌≤◌, ◌++◌, length, take, [], Ok, IsErr, OnErr, IfOk, Some};
ghost use Rattle.ecd_outside.specs.Causes.{Rose};
ghost use Rattle.ecd_outside.specs.Memory.{put_count, IsToFail, counted, failed};

use crate::plan::CallPlan;
use crate::stored::CallList;
use crate::traits::{Failed, Sink};
use ecd_list::OutOfMemory;
use std::alloc::Global;
use std::marker::Model;

/// A sink in memory that has room for so many bytes, and of which chosen calls fail. All is told.
#[derive(Debug, Drop)]
pub struct MemorySink {
    written: Vec<u8>,
    room: usize,
    plan: CallPlan,
}

impl Model for MemorySink {
    ghost use Rattle.std.specs.Prelude.{◌≤◌, vec_capacity};
    ghost use Rattle.ecd_outside.specs.Memory.{SinkShown};

    ghost Value = { SinkShown };

    ghost view = { λ s. record { written = s.written.items; room = s.room; plan = s.plan } };

    ghost invariant = { λ s. s.room ≤ vec_capacity s.written };
}

impl MemorySink {
    /// An empty sink with room for so many bytes, of which the calls of `put` with these numbers, from 0, fail. The room
    /// is taken here.
    ///
    /// # Errors
    ///
    /// `OutOfMemory` where there is no memory for the room.
    pub fn new(alloc: Global, room: usize, fails: CallList) -> Result<MemorySink, OutOfMemory>
        ensures { IfOk result
            (λ sink. sink ≡ record { written = []; room = room; plan = record { fails = fails; calls = 0; faults = 0 } }) }
    {
        Ok(MemorySink {
            written: Vec::with_capacity(alloc, room)?,
            room,
            plan: CallPlan::new(fails),
        })
    }

    /// The bytes written so far.
    pub fn written(&self) -> &[u8]
        ensures { result.now ≡ self.now.written }
    {
        self.written.as_slice()
    }

    /// The calls so far, and the faults.
    pub fn plan(&self) -> &CallPlan
        ensures { result.now ≡ self.now.plan }
    {
        &self.plan
    }
}

impl Sink for MemorySink {
    ghost use Rattle.std.specs.Prelude.{Some};

    ghost written = { λ s. Some s.written };

    ghost faults = { λ s. s.plan.faults };

    fn put(&mut self, piece: &[u8]) -> Result<usize, Failed>
        ensures to_fail { IsToFail self.old.plan → IsErr result × (self.new ≡ record self.old { plan = failed self.old.plan }) }
        ensures full { ¬ IsToFail self.old.plan → 0 < length piece.now → put_count self.old piece.now ≡ 0
            → IsErr result × (self.new ≡ record self.old { plan = failed self.old.plan }) }
        ensures taken { ¬ IsToFail self.old.plan → 0 < put_count self.old piece.now
            → (result ≡ Ok (put_count self.old piece.now)) × (self.new ≡ record self.old { written = self.old.written ++ take (put_count self.old piece.now) piece.now; plan = counted self.old.plan }) }
        ensures empty { ¬ IsToFail self.old.plan → length piece.now ≡ 0
            → (result ≡ Ok 0) × (self.new ≡ record self.old { plan = counted self.old.plan }) }

        // What every `put` of `Sink` keeps.
        ensures bound { IfOk result (λ count. count ≤ length piece.now) }
        ensures bytes { IfOk result (λ count. self.new.written ≡ self.old.written ++ take count piece.now) }
        ensures some { IfOk result (λ count. 0 < length piece.now → 0 < count) }
        ensures kept { OnErr result (self.new.written ≡ self.old.written) }
        ensures later { self.old.plan.faults ≤ self.new.plan.faults }
        ensures cause { OnErr result (Rose self.old.plan.faults self.new.plan.faults) }
    {
        if self.plan.fails_now() {
            return Err(Failed);
        }
        let count = piece
            .len()
            .min(self.room.saturating_sub(self.written.len()));
        if count == 0 && !piece.is_empty() {
            self.plan.count_fault();
            return Err(Failed);
        }
        match self.written.extend_from_slice(&piece[..count]) {
            Ok(()) => Ok(count),
            Err(_) => unreachable!(),
        }
    }
}
