//! Laws of the rules of names: facts about the definitions alone.

ghost use Rattle.ecd_names.specs.Laws.{HasOneFirst, NoneIsFirst, RankedBreaksNoThird, NoThirdIsRanked, PreludeIsKept, PreludeTakesNone, PreludeIsOfTypes};

/// A text has at most one first broken rule, and none where no rule is broken.
pub fn one_first()
    ensures one { HasOneFirst }
    ensures none { NoneIsFirst }
{}

/// Where names have a ranking, no use breaks N3, and where no use breaks N3, names have a ranking: the numbers of a
/// ranking fall from each name to those that its bodies use.
pub fn ranked_names()
    ensures unbroken { RankedBreaksNoThird }
    ensures ranked { NoThirdIsRanked }
{}

/// Where no rule is broken, the text has no rule of a name of the prelude. So these names have the bodies that the prelude gives them, and those of floats none.
/// They are types. Whatever the text, they take no arguments.
pub fn prelude_names()
    ensures kept { PreludeIsKept }
    ensures arity { PreludeTakesNone }
    ensures types { PreludeIsOfTypes }
{}
