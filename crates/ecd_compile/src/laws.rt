//! Facts about the definitions alone.

ghost use Rattle.ecd_compile.specs.Schema.{HasOneCause};
ghost use Rattle.ecd_compile.specs.Reads.{IsEncodingOfNumber, IsNeverRefused};

/// A schema is refused for one cause, at one place, and never where it can be compiled.
pub fn one_cause()
    ensures one { HasOneCause }
    ensures none { IsNeverRefused }
{}

/// The byte that the reader of a number takes is that number's encoding (RFC 8949, sections 3.1 and 4.2.1).
pub fn number_is_encoded()
    ensures { IsEncodingOfNumber }
{}
