//! The traits of the outside.

ghost use Rattle.std.specs.Prelude.{◌≡◌, ◌<◌, ◌≤◌, ℕ, List, [], Bool, true, false, length, take, Option, OnOk, OnErr, IfOk, IsErr};
ghost use Rattle.std.specs.Io.KnownBytes.{prepend_known, append_known};
ghost use Rattle.ecd_outside.specs.Causes.{Rose};
ghost use Rattle.ecd_outside.specs.Told.{Told, IsMissing, IsTaken, IsNoneAtEnd, MayFail};

use thiserror::Error;

/// A call on the outside failed.
#[derive(Clone, Copy, Debug, PartialEq, Eq, Error)]
#[error("failed")]
pub struct Failed;

/// Files by name, of which one at a time is begun and read from its first byte on.
pub trait Files {
    /// The contents of each name, where they are told.
    ghost told: { Self → Told };

    /// The bytes left of the file begun last, where contents are told.
    ghost left: { Self → Option (List ℕ) };

    /// Whether a file is begun.
    ghost begun: { Self → Bool };

    /// How often something has failed: a count that never falls.
    ghost faults: { Self → ℕ };

    /// Begins the file of that name. After a failure no file is begun.
    ///
    /// # Errors
    ///
    /// `Failed` where contents are told and no file has the name, and then the count of faults stays; else only
    /// where the count rose, or stands at its last value.
    fn begin(&mut self, name: &str) -> Result<(), Failed>
        ensures begun { OnOk result (begun self.new ≡ true) }
        ensures none { OnErr result (begun self.new ≡ false) }
        ensures left { OnOk result (IsTaken (told self.old) name.now [] (left self.new)) }
        ensures told { told self.new ≡ told self.old }
        ensures missing { IsMissing (told self.old) name.now → IsErr result × (faults self.new ≡ faults self.old) }
        ensures later { faults self.old ≤ faults self.new }
        ensures cause { OnErr result (MayFail (told self.old) name.now (faults self.old) (faults self.new)) };

    /// Takes bytes from the front of those left, and puts them at the front of `into`: at least one, unless none is left.
    ///
    /// # Errors
    ///
    /// `Failed` only where the count of faults rose, or stands at its last value. The bytes left stay, and `into` may
    /// then hold anything.
    fn read(&mut self, into: &mut [u8]) -> Result<usize, Failed>
        requires begun { begun self.old ≡ true }
        requires room { 0 < length into.old }
        ensures bound { IfOk result (λ count. count ≤ length into.new) }
        ensures bytes { IfOk result (λ count. left self.old ≡ prepend_known (take count into.new) (left self.new)) }
        ensures end { IfOk result (IsNoneAtEnd (left self.old)) }
        ensures kept { OnErr result (left self.new ≡ left self.old) }
        ensures begun { begun self.new ≡ true }
        ensures told { told self.new ≡ told self.old }
        ensures later { faults self.old ≤ faults self.new }
        ensures cause { OnErr result (Rose (faults self.old) (faults self.new)) };
}

/// A place that takes bytes.
pub trait Sink {
    /// The bytes written so far, where they are told.
    ghost written: { Self → Option (List ℕ) };

    /// How often something has failed: a count that never falls.
    ghost faults: { Self → ℕ };

    /// Appends bytes of the piece's front: at least one, unless the piece is empty.
    ///
    /// # Errors
    ///
    /// `Failed` only where the count of faults rose, or stands at its last value. Nothing is appended then. To take no
    /// byte of a piece that is not empty is a fault.
    fn put(&mut self, piece: &[u8]) -> Result<usize, Failed>
        ensures bound { IfOk result (λ count. count ≤ length piece.now) }
        ensures bytes { IfOk result (λ count. written self.new ≡ append_known (written self.old) (take count piece.now)) }
        ensures some { IfOk result (λ count. 0 < length piece.now → 0 < count) }
        ensures kept { OnErr result (written self.new ≡ written self.old) }
        ensures later { faults self.old ≤ faults self.new }
        ensures cause { OnErr result (Rose (faults self.old) (faults self.new)) };
}
