//! Exact sums.

ghost use Rattle.std.specs.Prelude.{◌≡◌, ℕ, ◌+◌, ◌<◌, ◌^◌, length};
ghost use Rattle.std.specs.Ordering.{nat_cmp};
ghost use Rattle.ecd_tally.specs.Sums.{IsWide, capacity, value};

use crate::Tally;
use std::cmp::Ordering;

/// How many words of 64 bits a sum has.
const WORDS: usize = 68;

/// A sum below 2^4352.
#[derive(Clone, Copy, Debug, PartialEq, Eq)]
pub struct Wide {
    /// Its words, the highest first.
    words: [u64; WORDS],
}

impl Wide {
    /// The sum of no numbers.
    pub fn new() -> Wide
        ensures { IsWide result 0 }
    {
        Wide { words: [0; WORDS] }
    }

    /// Which of two sums is the less.
    pub fn compare(&self, other: &Wide) -> Ordering
        ensures { (sum another : ℕ) → sum < capacity → another < capacity → IsWide self.now sum → IsWide other.now another → result ≡ nat_cmp sum another }
    {
        compare_words(&self.words, &other.words)
    }
}

impl Tally for Wide {
    ghost counts = { IsWide };

    fn add(&mut self, number: u64) {
        add_to(&mut self.words, number)
    }
}

/// Adds a number to that of some words, the highest first, where the sum fits in.
fn add_to(words: &mut [u64], number: u64)
    ensures { value words.old + number < (2 ^ 64) ^ length words.old → value words.new ≡ value words.old + number }
{
    let mut carry = number;
    let mut at = words.len();
    while 0 < carry && 0 < at {
        at -= 1;
        let (word, over) = words[at].overflowing_add(carry);
        words[at] = word;
        carry = over as u64;
    }
}

/// Which of two numbers is the less, each by as many words, the highest first.
fn compare_words(one: &[u64], other: &[u64]) -> Ordering
    requires { length one.now ≡ length other.now }
    ensures { result ≡ nat_cmp (value one.now) (value other.now) }
{
    let mut order = Ordering::Equal;
    let mut at = one.len();
    while 0 < at {
        at -= 1;
        order = one[at].cmp(&other[at]).then(order);
    }
    order
}
