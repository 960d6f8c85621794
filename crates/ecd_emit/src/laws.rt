//! Facts about what emitted code writes.

ghost use Rattle.ecd_emit.specs.Writes.{PutsAreWritten};

/// Behind writes of bytes, one behind the other, the block holds its old bytes with these in them, and no other block is changed.
pub fn puts_are_written()
    ensures { PutsAreWritten }
{}
