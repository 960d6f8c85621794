//! Laws of the prelude, about the definitions alone.

ghost use Rattle.ecd_prelude.specs.Laws.{NamesDiffer, NamesAreNoSockets, EachDefinesType};

/// The names that have a rule and those of floats are all different, and none begins with `$`.
pub fn names()
    ensures differ { NamesDiffer }
    ensures no_sockets { NamesAreNoSockets }
{}

/// Each rule is a definition without parameters, of an entry without occurrence and key.
pub fn rules()
    ensures { EachDefinesType }
{}
