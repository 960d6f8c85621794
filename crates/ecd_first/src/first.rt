//! The first fault so far.

ghost use Rattle.std.specs.Prelude.{◌≡◌};
ghost use Rattle.ecd_first.specs.Firsts.{Sees, When, later, earlier, noted};

use crate::place::Place;

/// A broken rule, by its number, and the place where it is broken.
#[derive(Clone, Copy, Debug)]
pub struct Broken<P> {
    pub place: P,
    pub rule: u8,
}

/// The first broken rule so far, if any is.
#[derive(Clone, Copy, Debug)]
pub struct First<P> {
    pub broken: Option<Broken<P>>,
}

/// Whether the first comes later than the other: by place, then by rule.
fn comes_later<P: Place>(first: Broken<P>, other: Broken<P>) -> bool
    ensures { result ≡ later P.rank first other }
{
    if other.place.comes_before(first.place) {
        true
    } else if first.place.comes_before(other.place) {
        false
    } else {
        other.rule < first.rule
    }
}

impl<P: Place> First<P> {
    /// Takes in that the rule is broken at the place, where the test holds.
    pub fn note(&mut self, holds: bool, place: P, rule: u8)
        ensures first { self.new.broken ≡ earlier P.rank self.old.broken (noted holds place rule) }
        ensures seen { Sees P.rank self.old.broken self.new.broken (When holds place rule) }
    {
        if !holds {
            return;
        }
        let this = Broken { place, rule };
        match self.broken {
            Some(first) if !comes_later(first, this) => {}
            _ => self.broken = Some(this),
        }
    }
}
