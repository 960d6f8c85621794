//! What may stand against an item.

ghost use Rattle.std.specs.Prelude.{◌≡◌};
ghost use Rattle.ecd_item_laws.specs.FirstFault.{number_of};

/// Why no item is accepted at a head's place.
#[derive(Clone, Copy, Debug, PartialEq, Eq)]
pub enum Cause {
    /// The head is cut off (RFC 8949, section 3).
    Short,
    /// The additional information is 28, 29 or 30 (section 3).
    Reserved,
    /// The length is indefinite, or this is a break (section 3.2).
    Indefinite,
    /// A shorter head holds the argument (section 4.2.1).
    NotShortest,
    /// A floating-point number (section 3.3).
    Float,
    /// A simple value below 32 in a byte of its own (section 3.3).
    BadSimple,
    /// The bytes of a text string are not UTF-8 (section 3.1).
    BadUtf8,
    /// A map's key is not above the key before it (sections 4.2.1 and 5.6).
    KeyOrder,
    /// An array, map or tag nests deeper than is allowed.
    TooDeep,
    /// A string is longer than what is left (section 3.1).
    ShortString,
}

impl Cause {
    /// The number by which a fault names the cause.
    pub fn number(self) -> u8
        ensures { result ≡ number_of self }
    {
        match self {
            Cause::Short => 1,
            Cause::Reserved => 2,
            Cause::Indefinite => 3,
            Cause::NotShortest => 4,
            Cause::Float => 5,
            Cause::BadSimple => 6,
            Cause::BadUtf8 => 7,
            Cause::KeyOrder => 8,
            Cause::TooDeep => 9,
            Cause::ShortString => 10,
        }
    }
}

/// A head's place and what stands against the item there.
#[derive(Clone, Copy, Debug, PartialEq, Eq)]
pub struct Fault {
    /// The place of the head.
    pub place: usize,
    /// What stands against the item.
    pub cause: Cause,
}
