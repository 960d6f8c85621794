//! The orders of the keys of a map in deterministic CBOR: RFC 8949, sections 4.2.1 and 4.2.3.
#![tactic(auto)]

ghost use Rattle.std.specs.Prelude.{◌≡◌};
ghost use Rattle.ecd_keyorder.specs.Order.{comparison};

pub mod laws;

use std::cmp::Ordering;

/// An order of encodings, by which the keys of a map ascend.
#[derive(Clone, Copy, Debug, PartialEq, Eq)]
pub enum Order {
    /// The bytewise lexicographic order (RFC 8949, section 4.2.1): an encoding that begins another comes before it.
    Bytewise,
    /// The length-first order (RFC 8949, section 4.2.3): a shorter encoding comes first, and of two of one length the first in
    /// the bytewise order.
    LengthFirst,
}

/// Which of two encodings comes first in the order. It takes no memory.
pub fn compare(order: Order, a: &[u8], b: &[u8]) -> Ordering
    ensures { result ≡ comparison order a.now b.now }
{
    match order {
        Order::Bytewise => a.cmp(&b),
        Order::LengthFirst => a.len().cmp(&b.len()).then(a.cmp(&b)),
    }
}
