//! The first rule of names that a text breaks.

ghost use Rattle.std.specs.Prelude.{◌≡◌, None, IfOk, OnOk};
ghost use Rattle.ecd_bodies.specs.Named.{all_rules};
ghost use Rattle.ecd_bodies.specs.Reaching.{IsRanked};
ghost use Rattle.ecd_names.specs.Breaks.{Breaks};
ghost use Rattle.ecd_names.specs.Edges.{AreComponents};
ghost use Rattle.ecd_first.specs.Firsts.{offset, Sees};
ghost use Rattle.ecd_names.specs.Names.{HasFewParameters};
ghost use Rattle.ecd_names.specs.Scopes.{AreScopes};

use crate::edges::component_numbers;
use crate::judge_name::judge_rule;
use crate::scene::Scene;
use crate::scope::{Scope, scopes_of};
use ecd_bodies::RuleTable;
use ecd_first::{Broken, First};
use ecd_list::OutOfMemory;
use std::alloc::Global;

/// What the rules of the text break.
fn judge_rules(
    alloc: Global,
    table: &RuleTable,
    scopes: &[Scope],
    components: &[u32],
    first: &mut First<u32>,
) -> Result<(), OutOfMemory>
    requires scopes { AreScopes (all_rules table.now) scopes.now }
    requires components { AreComponents table.now components.now }
    ensures { OnOk result (Sees offset first.old.broken first.new.broken (Breaks table.now)) }
{
    let rules = table.text_rules();
    let prelude = table.rule_count() as usize - rules.len();
    for (index, rule) in rules.iter().enumerate() {
        let scene = Scene {
            table,
            components,
            rule,
            scope: &scopes[prelude + index],
            prelude,
            index,
        };
        judge_rule(alloc, &scene, first)?;
    }
    Ok(())
}

/// The first rule of names that the text breaks.
pub(crate) fn first_broken(
    alloc: Global,
    table: &RuleTable,
) -> Result<Option<Broken<u32>>, OutOfMemory>
    ensures first { IfOk result (λ broken. Sees offset None broken (Breaks table.now)) }
    ensures ranked { IfOk result (λ broken. broken ≡ None → IsRanked table.now) }
    ensures few { IfOk result (λ _. HasFewParameters table.now) }
{
    let scopes = scopes_of(alloc, table)?;
    let components = component_numbers(alloc, table, &scopes)?;
    let mut first = First { broken: None };
    judge_rules(alloc, table, &scopes, &components, &mut first)?;
    Ok(first.broken)
}
