//! The graph of names.

ghost use Rattle.std.specs.Prelude.{◌≡◌, ◌++◌, ℕ, ◌<◌, IfOk, OnOk, length};
ghost use Rattle.ecd_bodies.specs.Named.{all_rules, first_of};
ghost use Rattle.ecd_names.specs.Edges.{site_edges, rule_edges, edges_of, AreComponents};
ghost use Rattle.ecd_names.specs.Parameters.{AreParameters};
ghost use Rattle.ecd_names.specs.Scopes.{IsScope, AreScopes};

use crate::parameters::Parameters;
use crate::scope::Scope;
use ecd_bodies::RuleTable;
use ecd_graph::{Edge, add_edge, components};
use ecd_list::OutOfMemory;
use ecd_syntax::Rule;
use ecd_uses::Site;
use std::alloc::Global;

/// Adds the edge of a site of a rule, whose name has its first rule at `from`.
fn add_site(
    table: &RuleTable,
    edges: &mut Vec<Edge>,
    rule: &Rule,
    parameters: &Parameters,
    from: Option<u32>,
    site: &Site,
) -> Result<(), OutOfMemory>
    requires parameters { AreParameters rule.now.params parameters.now }
    requires from { from ≡ first_of table.now rule.now.name.text }
    ensures { OnOk result (edges.new.items ≡ edges.old.items ++ site_edges (first_of table.now) rule.now site.now) }
{
    match site {
        Site::Use { name, .. } => {
            let text = name.text.as_slice();
            if !parameters.has(text) {
                add_edge(edges, from, table.first(text))?;
            }
            Ok(())
        }
        Site::Parenthesis { .. } => Ok(()),
    }
}

/// Adds the edges of a rule.
fn add_rule(
    table: &RuleTable,
    edges: &mut Vec<Edge>,
    rule: &Rule,
    scope: &Scope,
) -> Result<(), OutOfMemory>
    requires { IsScope rule.now scope.now }
    ensures { OnOk result (edges.new.items ≡ edges.old.items ++ rule_edges (first_of table.now) rule.now) }
{
    let from = table.first(rule.name.text.as_slice());
    for site in scope.sites.as_slice() {
        add_site(table, edges, rule, &scope.parameters, from, site)?;
    }
    Ok(())
}

/// The edges of all uses.
fn edges(alloc: Global, table: &RuleTable, scopes: &[Scope]) -> Result<Vec<Edge>, OutOfMemory>
    requires { AreScopes (all_rules table.now) scopes.now }
    ensures { IfOk result (λ edges. edges.items ≡ edges_of table.now) }
{
    let mut edges = Vec::new(alloc);
    for number in 0..table.rule_count() {
        match table.rule(number) {
            Some(rule) => add_rule(table, &mut edges, rule, &scopes[number as usize])?,
            None => unreachable!(),
        }
    }
    Ok(edges)
}

/// The numbers of the strongly connected components of the names, each under the number of a name's first rule, in reverse topological order: names have one number exactly where they reach each other, and no name reaches one of a greater number.
pub(crate) fn component_numbers(
    alloc: Global,
    table: &RuleTable,
    scopes: &[Scope],
) -> Result<Vec<u32>, OutOfMemory>
    requires { AreScopes (all_rules table.now) scopes.now }
    ensures { IfOk result (λ numbers. AreComponents table.now numbers.items) }
{
    let edges = edges(alloc, table, scopes)?;
    let numbers = components(alloc, table.rule_count(), &edges)?;
    Ok(numbers)
}
