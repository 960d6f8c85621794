//! What the name and the parameters of a rule break, and the rule as a whole.

ghost use Rattle.std.specs.Prelude.{◌≡◌, ◌↔◌, true, IfOk, OnOk, take};
ghost use Rattle.ecd_names.specs.Breaks.{IsDuplicate, IsOtherAssign, RuleBreaks};
ghost use Rattle.ecd_first.specs.Firsts.{offset, Sees};
ghost use Rattle.ecd_names.specs.Scenes.{IsScene, NameFaults};

use crate::judge_site::judge_sites;
use crate::parameters::judge_parameters;
use crate::scene::Scene;
use ecd_first::First;
use ecd_list::OutOfMemory;
use ecd_prelude::is_float_name;
use ecd_prelude::socket::is_type_socket;
use ecd_syntax::Assign;
use ecd_uses::lead;
use std::alloc::Global;

/// N1: whether the prelude, or for `=` a rule before it, defines the rule's name.
fn is_duplicate(scene: &Scene) -> bool
    requires { IsScene scene.now }
    ensures { (result ≡ true) ↔ IsDuplicate (take scene.now.index scene.now.table.now) scene.now.rule.now }
{
    let name = scene.rule.name.text.as_slice();
    if is_float_name(name) {
        return true;
    }
    let end = match scene.rule.assign {
        Assign::Define => scene.prelude + scene.index,
        Assign::TypeMore | Assign::GroupMore => scene.prelude,
    };
    match scene.table.first(name) {
        Some(first) => (first as usize) < end,
        None => false,
    }
}

/// N5: whether the assignment does not suit the kind of the rule's name.
fn is_other_assign(alloc: Global, scene: &Scene) -> Result<bool, OutOfMemory>
    requires { IsScene scene.now }
    ensures { IfOk result (λ other. (other ≡ true) ↔ IsOtherAssign scene.now.table.now scene.now.rule.now) }
{
    let name = scene.rule.name.text.as_slice();
    match scene.rule.assign {
        Assign::TypeMore => Ok(scene.table.is_group(name)),
        Assign::GroupMore => Ok(is_type_socket(name)),
        Assign::Define => {
            if is_type_socket(name) {
                let lead = lead(alloc, &scene.rule.body)?;
                Ok(scene.leads_to_group(&lead))
            } else {
                Ok(false)
            }
        }
    }
}

/// N1, N4 and N5 at the rule's name.
fn judge_name(alloc: Global, scene: &Scene, first: &mut First<u32>) -> Result<(), OutOfMemory>
    requires { IsScene scene.now }
    ensures { OnOk result (Sees offset first.old.broken first.new.broken (NameFaults scene.now.table.now (take scene.now.index scene.now.table.now) scene.now.rule.now)) }
{
    let name = &scene.rule.name;
    let is_duplicate = is_duplicate(scene);
    first.note(is_duplicate, name.at, 1);
    let arity = scene.table.arity(name.text.as_slice());
    first.note(scene.rule.params.len() != arity, name.at, 4);
    let is_other_assign = is_other_assign(alloc, scene)?;
    first.note(is_other_assign, name.at, 5);
    Ok(())
}

/// What a rule of the text breaks.
pub(crate) fn judge_rule(
    alloc: Global,
    scene: &Scene,
    first: &mut First<u32>,
) -> Result<(), OutOfMemory>
    requires { IsScene scene.now }
    ensures { OnOk result (Sees offset first.old.broken first.new.broken (RuleBreaks scene.now.table.now (take scene.now.index scene.now.table.now) scene.now.rule.now)) }
{
    judge_name(alloc, scene, first)?;
    judge_parameters(first, scene.rule.params.as_slice(), &scene.scope.parameters);
    judge_sites(scene, first);
    Ok(())
}
