//! Which calls of an outside in memory are to fail.

ghost use Rattle.std.specs.Prelude.{◌≡◌, ◌≤◌, ◌↔◌, IsTrue};
ghost use Rattle.std.specs.Bool.{MatchBool};
ghost use Rattle.ecd_outside.specs.Memory.{IsToFail, counted, failed};
ghost use Rattle.ecd_outside.specs.Causes.{raised};

use crate::stored::CallList;

/// The calls that are to fail, the number of calls so far, and the number of faults so far. Both numbers stand still
/// at 2^64 - 1.
#[derive(Debug, Drop)]
pub struct CallPlan {
    pub fails: CallList,
    pub calls: u64,
    pub faults: u64,
}

impl CallPlan {
    /// A plan at its first call, with no fault so far.
    pub fn new(fails: CallList) -> CallPlan
        ensures { result ≡ record { fails = fails; calls = 0; faults = 0 } }
    {
        CallPlan {
            fails,
            calls: 0,
            faults: 0,
        }
    }

    /// Counts a call, and a fault where the call is one of those that are to fail.
    pub(crate) fn fails_now(&mut self) -> bool
        ensures which { IsTrue result ↔ IsToFail self.old }
        ensures after { MatchBool result (self.new ≡ failed self.old) (self.new ≡ counted self.old) }
        ensures later { self.old.faults ≤ self.new.faults }
    {
        let fails = self.fails.as_slice().contains(&self.calls);
        self.count_call();
        if fails {
            self.count_fault();
        }
        fails
    }

    /// Counts a call that does not fail by the plan.
    pub(crate) fn count_call(&mut self)
        ensures { self.new ≡ counted self.old }
    {
        self.calls = self.calls.saturating_add(1);
    }

    /// Counts a fault.
    pub(crate) fn count_fault(&mut self)
        ensures after { self.new ≡ record self.old { faults = raised self.old.faults } }
        ensures later { self.old.faults ≤ self.new.faults }
    {
        self.faults = self.faults.saturating_add(1);
    }
}
