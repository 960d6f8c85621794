//! Laws of taking in, about the definitions alone.

ghost use Rattle.ecd_faults.specs.Taking.{LeastOfAll, NoneOfAll, TakenApart, TakenTogether};

/// Of what has taken in some faults and no others: there is a first one exactly where there is one of them, and it is the least.
pub fn first_of_all()
    ensures none { NoneOfAll }
    ensures least { LeastOfAll }
{}

/// Faults that are taken in one after another, also by way of one that takes in nothing else, are taken in.
pub fn one_after_another()
    ensures together { TakenTogether }
    ensures apart { TakenApart }
{}
