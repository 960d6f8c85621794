//! Facts about the definitions alone.

ghost use Rattle.ecd_judge.specs.Schema.{HasOneCause, SoundHasNoCause, HasOneMeaning};

/// A schema is refused for one cause, at one place, and for none where it breaks no rule. Then it has one list of rules.
pub fn one_cause()
    ensures one { HasOneCause }
    ensures none { SoundHasNoCause }
    ensures meaning { HasOneMeaning }
{}
