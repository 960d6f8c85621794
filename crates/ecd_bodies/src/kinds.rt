//! Which names are groups: what makes them so, as a graph.

ghost use Rattle.std.specs.Prelude.{◌≡◌, ◌↔◌, ◌++◌, ◌<◌, ℕ, suc, IfOk, OnOk, length, flat_map};
ghost use Rattle.ecd_graph.specs.Graphs.{IsMarked};
ghost use Rattle.ecd_prelude.specs.Prelude.{prelude_rules};
ghost use Rattle.ecd_bodies.specs.Named.{is_parameter as has_parameter, all_rules};
ghost use Rattle.ecd_bodies.specs.Numbers.{first_in, IsNumbered};
ghost use Rattle.ecd_bodies.specs.Causes.{is_group_more as makes_group, node_or_source, lead_cause as cause_of_lead, rule_cause as cause_of_rule, edges_of_rule, AreJudged};

use crate::numbers::{NumberMap, first_number};
use ecd_graph::{Edge, add_edge, reached};
use ecd_list::OutOfMemory;
use ecd_prelude::socket::{is_group_socket, is_socket};
use ecd_syntax::{Assign, Name, Rule};
use ecd_uses::{Lead, lead};
use std::alloc::Global;

/// Whether the name is one of the parameters.
fn is_parameter(params: &[Name], name: &[u8]) -> bool
    ensures { result ≡ has_parameter params.now name.now }
{
    params.iter().any(|param| param.text.as_slice() == name)
}

/// Whether the assignment makes a name a group (RFC 8610, section 2.2.2).
fn is_group_more(assign: Assign) -> bool
    ensures { result ≡ makes_group assign }
{
    match assign {
        Assign::Define | Assign::TypeMore => false,
        Assign::GroupMore => true,
    }
}

/// The node of a used name: that of its first rule, or the source for a socket of a group without a rule.
fn name_cause(numbers: &NumberMap, source: u32, name: &[u8]) -> Option<u32>
    ensures { result ≡ node_or_source source name.now (first_in numbers.now.entries name.now) }
{
    match first_number(numbers, name) {
        Some(node) => Some(node),
        None if is_group_socket(name) => Some(source),
        None => None,
    }
}

/// The node that makes a group of what has this lead, if any does. A parameter of the rule around makes none.
fn lead_cause(numbers: &NumberMap, source: u32, params: &[Name], lead: &Lead) -> Option<u32>
    ensures { result ≡ cause_of_lead (first_in numbers.now.entries) source params.now lead.now }
{
    match lead {
        Lead::Group => Some(source),
        Lead::Type => None,
        Lead::Named(name) => {
            if is_parameter(params, name.text.as_slice()) {
                return None;
            }
            name_cause(numbers, source, name.text.as_slice())
        }
    }
}

/// The node by which a rule makes its name a group, if any does.
fn rule_cause(
    alloc: Global,
    numbers: &NumberMap,
    source: u32,
    rule: &Rule,
) -> Result<Option<u32>, OutOfMemory>
    ensures { IfOk result (λ cause. cause ≡ cause_of_rule (first_in numbers.now.entries) source rule.now) }
{
    let name = rule.name.text.as_slice();
    if is_group_socket(name) {
        return Ok(Some(source));
    }
    if is_socket(name) {
        return Ok(None);
    }
    if is_group_more(rule.assign) {
        return Ok(Some(source));
    }
    let lead = lead(alloc, &rule.body)?;
    Ok(lead_cause(numbers, source, rule.params.as_slice(), &lead))
}

/// Adds the edges of rules.
fn add_edges(
    alloc: Global,
    numbers: &NumberMap,
    source: u32,
    edges: &mut Vec<Edge>,
    rules: &[Rule],
) -> Result<(), OutOfMemory>
    ensures { OnOk result (edges.new.items ≡ edges.old.items ++ flat_map (edges_of_rule (first_in numbers.now.entries) source) rules.now) }
{
    for rule in rules {
        let from = rule_cause(alloc, numbers, source, rule)?;
        let to = first_number(numbers, rule.name.text.as_slice());
        add_edge(edges, from, to)?;
    }
    Ok(())
}

/// A mark for each node, of which the source alone is marked. It is the last.
fn source_mark(alloc: Global, source: u32) -> Result<Vec<bool>, OutOfMemory>
    ensures nodes { IfOk result (λ marks. length marks.items ≡ suc source) }
    ensures marked { IfOk result (λ marks. (node : ℕ) → IsMarked marks.items node ↔ (node ≡ source)) }
{
    let mut marks = vec![in alloc; false; source as usize]?;
    marks.push(true)?;
    Ok(marks)
}

/// Which names are groups, as a mark for the number of each name's first rule.
pub(crate) fn group_marks(
    alloc: Global,
    numbers: &NumberMap,
    count: u32,
    prelude: &[Rule],
    text: &[Rule],
) -> Result<Vec<bool>, OutOfMemory>
    requires prelude { prelude.now ≡ prelude_rules }
    requires counted { count ≡ length (all_rules text.now) }
    requires numbered { IsNumbered numbers.now.entries (all_rules text.now) }
    ensures judged { IfOk result (λ marks. AreJudged text.now (first_in numbers.now.entries) marks.items) }
    ensures enough { IfOk result (λ marks. length (all_rules text.now) < length marks.items) }
{
    let mut edges = Vec::new(alloc);
    add_edges(alloc, numbers, count, &mut edges, prelude)?;
    add_edges(alloc, numbers, count, &mut edges, text)?;
    let marked = source_mark(alloc, count)?;
    let groups = reached(alloc, edges.as_slice(), marked.as_slice())?;
    Ok(groups)
}
