//! The parameters and the sites of each rule.

ghost use Rattle.std.specs.Prelude.{IfOk};
ghost use Rattle.ecd_bodies.specs.Named.{all_rules};
ghost use Rattle.ecd_names.specs.Scopes.{IsScope, AreScopes};

use crate::parameters::Parameters;
use ecd_bodies::RuleTable;
use ecd_list::OutOfMemory;
use ecd_syntax::Rule;
use ecd_uses::{SiteList, sites};
use std::alloc::Global;

/// What is kept of a rule while it is judged.
#[derive(Drop)]
pub(crate) struct Scope {
    pub(crate) parameters: Parameters,
    /// Where it uses names, in the order of the text.
    pub(crate) sites: SiteList,
}

impl Scope {
    fn of(alloc: Global, rule: &Rule) -> Result<Scope, OutOfMemory>
        ensures { IfOk result (λ scope. IsScope rule.now scope) }
    {
        let parameters = Parameters::of(alloc, rule.params.as_slice())?;
        let sites = sites(alloc, rule)?;
        Ok(Scope { parameters, sites })
    }
}

/// What is kept of all rules, those of the prelude first.
pub(crate) fn scopes_of(alloc: Global, table: &RuleTable) -> Result<Vec<Scope>, OutOfMemory>
    ensures { IfOk result (λ scopes. AreScopes (all_rules table.now) scopes.items) }
{
    let mut scopes = Vec::new(alloc);
    for number in 0..table.rule_count() {
        match table.rule(number) {
            Some(rule) => scopes.push(Scope::of(alloc, rule)?)?,
            None => unreachable!(),
        }
    }
    Ok(scopes)
}
