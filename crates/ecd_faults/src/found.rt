//! The first fault so far.

ghost use Rattle.std.specs.Prelude.{◌≡◌, [], ◌∷◌, None, is_none};
ghost use Rattle.std.specs.Option.{option_map};
ghost use Rattle.ecd_expansion.specs.Expansion.{rank};
ghost use Rattle.ecd_expansion.specs.Told.{fault};
ghost use Rattle.ecd_faults.specs.Taking.{Takes, earlier_of, fault_of, rule_of};

use ecd_expansion::ElabRule;
use ecd_first::First;

/// The first fault of those that were met.
#[derive(Clone, Copy, Debug)]
pub struct Found {
    first: First<u32>,
}

/// The rank of a rule: of two rules that are broken at one place the one of less rank is named.
fn rank(rule: ElabRule) -> u8
    ensures { result ≡ rank rule }
{
    match rule {
        ElabRule::U1 => 1,
        ElabRule::U2 => 2,
        ElabRule::U3 => 3,
        ElabRule::U4 => 4,
        ElabRule::E1 => 5,
        ElabRule::E2 => 6,
        ElabRule::E3 => 7,
        ElabRule::E4 => 8,
        ElabRule::E5 => 9,
        ElabRule::E6 => 10,
        ElabRule::L1 => 11,
        ElabRule::L2 => 12,
        ElabRule::L3 => 13,
        ElabRule::L4 => 14,
    }
}

/// The rule of a rank.
fn rule_of(rank: u8) -> ElabRule
    ensures { result ≡ rule_of rank }
{
    match rank {
        1 => ElabRule::U1,
        2 => ElabRule::U2,
        3 => ElabRule::U3,
        4 => ElabRule::U4,
        5 => ElabRule::E1,
        6 => ElabRule::E2,
        7 => ElabRule::E3,
        8 => ElabRule::E4,
        9 => ElabRule::E5,
        10 => ElabRule::E6,
        11 => ElabRule::L1,
        12 => ElabRule::L2,
        13 => ElabRule::L3,
        _ => ElabRule::L4,
    }
}

impl Found {
    /// No fault yet.
    pub fn new() -> Found
        ensures { result.first.broken ≡ None }
    {
        Found {
            first: First { broken: None },
        }
    }

    /// Takes in a fault: the rule is broken at the place.
    #[tactic(auto, unfolding(crate::specs::Taking::earlier_of))]
    pub fn note(&mut self, place: u32, rule: ElabRule)
        ensures { Takes self.old self.new (fault place rule ∷ []) }
    {
        self.first.note(true, place, rank(rule));
    }

    /// Takes in the faults that another one has taken in.
    #[tactic(auto, unfolding(crate::specs::Taking::earlier_of))]
    pub fn merge(&mut self, other: &Found)
        ensures { self.new.first.broken ≡ earlier_of self.old.first.broken other.now.first.broken }
    {
        if let Some(broken) = other.first.broken {
            self.first.note(true, broken.place, broken.rule);
        }
    }

    /// Whether there is no fault.
    pub fn is_clean(&self) -> bool
        ensures { result ≡ is_none self.now.first.broken }
    {
        self.first.broken.is_none()
    }

    /// The first fault: its place, as an offset in bytes, and its rule.
    pub fn first(&self) -> Option<(u32, ElabRule)>
        ensures { result ≡ option_map fault_of self.now.first.broken }
    {
        match self.first.broken {
            Some(broken) => Some((broken.place, rule_of(broken.rule))),
            None => None,
        }
    }
}
