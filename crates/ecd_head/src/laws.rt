//! Laws of heads: facts about the definitions alone.

ghost use Rattle.std.specs.Prelude.{ℕ, List};
ghost use Rattle.ecd_head.specs.Laws.{NoHeadBeginsAnother};

/// No head begins another, and no bytes are two heads.
pub fn no_head_begins_another()
    ensures { (major arg other_major other_arg : ℕ) (rest other_rest : List ℕ) → NoHeadBeginsAnother major arg rest other_major other_arg other_rest }
{}
