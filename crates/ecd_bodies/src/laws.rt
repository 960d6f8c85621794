//! Laws of names: facts about the definitions alone.

ghost use Rattle.ecd_bodies.specs.Laws.{RankedNeverReachesBack, UntouchedKeepBodies, PreludeGivesOneBody, FloatsHaveNoBody, UndefinedHaveNoBody, GroupsByRules};

/// Where names have numbers such that each body uses only names of lower number, no name reaches one that uses it.
pub fn ranked_names()
    ensures { RankedNeverReachesBack }
{}

/// A name that the text has no rule for has the bodies that the prelude gives it: one where it is the prelude's, none where it is a name of floats or undefined.
pub fn bodies()
    ensures untouched { UntouchedKeepBodies }
    ensures prelude { PreludeGivesOneBody }
    ensures floats { FloatsHaveNoBody }
    ensures undefined { UndefinedHaveNoBody }
{}

/// A name is a group exactly where it begins with `$$`, or does not begin with `$` and one of its rules makes it a group.
pub fn groups()
    ensures { GroupsByRules }
{}
