//! Names of functions with a depth: a word, and the depth in decimal digits behind it.

ghost use Rattle.std.specs.Prelude.{◌≡◌, IfOk};
ghost use Rattle.ecd_rt.specs.Names as spec;

use ecd_cast::tree::Name;
use ecd_cbuild::build::name;
use ecd_list::OutOfMemory;
use std::alloc::Global;

/// `any_` and the depth
#[tactic(auto, unfolding(crate::specs::Names::any_name))]
pub(crate) fn any_name(alloc: Global, deepest: u8) -> Result<Name, OutOfMemory>
    ensures { IfOk result (λ x. x ≡ spec.any_name deepest) }
{
    let text = format!(in alloc; "any_{deepest}")?;
    name(alloc, text.as_bytes())
}

/// `items_` and the depth
#[tactic(auto, unfolding(crate::specs::Names::items_name))]
pub(crate) fn items_name(alloc: Global, deepest: u8) -> Result<Name, OutOfMemory>
    ensures { IfOk result (λ x. x ≡ spec.items_name deepest) }
{
    let text = format!(in alloc; "items_{deepest}")?;
    name(alloc, text.as_bytes())
}

/// `pairs_` and the depth
#[tactic(auto, unfolding(crate::specs::Names::pairs_name))]
pub(crate) fn pairs_name(alloc: Global, deepest: u8) -> Result<Name, OutOfMemory>
    ensures { IfOk result (λ x. x ≡ spec.pairs_name deepest) }
{
    let text = format!(in alloc; "pairs_{deepest}")?;
    name(alloc, text.as_bytes())
}
