//! The rows of the prelude's table.

/// The body of a rule of the prelude.
#[derive(Clone, Copy)]
pub(crate) enum Body {
    /// `#`
    Any,
    /// `#NUMBER`
    Major(u8),
    /// `#7.NUMBER`
    Simple(u64),
    /// `name`
    Name(&'static [u8]),
    /// `first / second`
    Either(&'static [u8], &'static [u8]),
    /// `#6.NUMBER(name)`
    Tag(u64, &'static [u8]),
    /// `#6.NUMBER([word: int, m: integer])`
    Fraction(u64, &'static [u8]),
}

/// A name, and the body of its rule.
pub(crate) type Row = (&'static [u8], Body);
