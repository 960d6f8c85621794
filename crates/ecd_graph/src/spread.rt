//! What the marked nodes of a graph reach.

ghost use Rattle.std.specs.Prelude.{◌≡◌, ◌↔◌, ◌≤◌, ◌<◌, ℕ, OnOk, IfOk, length};
ghost use Rattle.ecd_graph.specs.Graphs.{AreAmong, IsMarked, IsReached};
ghost use Rattle.ecd_graph.specs.Searches.{slot, IsOn};
ghost use Rattle.ecd_graph.specs.Spreads.{IsSpread, IsLinked, Spreads, spread_work, with_marked};

use crate::chains::chains_of;
use crate::edge::Edge;
use ecd_list::OutOfMemory;
use std::alloc::Global;

/// What was reached so far.
#[derive(Debug, Drop)]
pub(crate) struct Spread<'a> {
    pub(crate) edges: &'a [Edge],
    /// The nodes to begin with.
    pub(crate) marked: &'a [bool],
    /// For each node the link of its last edge.
    pub(crate) last: Vec<u32>,
    /// For each edge the link of the one before it from the same node.
    pub(crate) previous: Vec<u32>,
    pub(crate) reached: Vec<bool>,
    /// The reached nodes whose edges are to be followed.
    pub(crate) pending: Vec<u32>,
}

impl<'a> Spread<'a> {
    /// Reaches a node.
    fn reach(&mut self, node: u32) -> Result<(), OutOfMemory>
        requires among { node < length self.old.reached.items }
        requires reached { IsReached self.old.edges.now self.old.marked.now node }
        ensures held { OnOk result ((v link : ℕ) → IsSpread self.old v link → IsSpread self.new v link) }
        ensures spreads { OnOk result (Spreads self.old self.new) }
        ensures got { OnOk result (IsMarked self.new.reached.items node) }
        ensures nodes { OnOk result (length self.new.reached.items ≡ length self.old.reached.items) }
        ensures work { OnOk result (spread_work self.new ≤ spread_work self.old) }
    {
        if self.reached[node as usize] {
            return Ok(());
        }
        self.pending.push(node)?;
        self.reached[node as usize] = true;
        Ok(())
    }

    /// Follows the edges of a reached node.
    fn follow_all(&mut self, node: u32) -> Result<(), OutOfMemory>
        requires held { IsSpread self.old node (length self.old.edges.now) }
        requires linked { IsLinked self.old }
        requires reached { IsMarked self.old.reached.items node }
        ensures held { OnOk result (IsSpread self.new node 0) }
        ensures spreads { OnOk result (Spreads self.old self.new) }
        ensures work { OnOk result (spread_work self.new ≤ spread_work self.old) }
    {
        let mut link = self.last[node as usize];
        while let Some(edge) = link.checked_sub(1) {
            let target = self.edges[edge as usize].to;
            self.reach(target)?;
            link = self.previous[edge as usize];
        }
        Ok(())
    }

    /// Follows the edges of all nodes that wait, and of those that are reached by it.
    fn follow_pending(&mut self) -> Result<(), OutOfMemory>
        requires held { IsSpread self.old 0 0 }
        requires linked { IsLinked self.old }
        ensures held { OnOk result (IsSpread self.new 0 0) }
        ensures spreads { OnOk result (Spreads self.old self.new) }
        ensures none { OnOk result (length self.new.pending.items ≡ 0) }
    {
        while let Some(node) = self.pending.pop() {
            self.follow_all(node)?;
        }
        Ok(())
    }
}

/// Adds a node where it is marked.
fn push_if(nodes: &mut Vec<u32>, node: u32, is_marked: bool) -> Result<(), OutOfMemory>
    ensures { OnOk result (nodes.new.items ≡ with_marked nodes.old.items node is_marked) }
{
    if is_marked {
        nodes.push(node)?;
    }
    Ok(())
}

/// The marked nodes.
fn marked_nodes(alloc: Global, marked: &[bool]) -> Result<Vec<u32>, OutOfMemory>
    ensures each { IfOk result (λ nodes. (i : ℕ) → i < length nodes.items → IsMarked marked.now (slot nodes.items i)) }
    ensures all { IfOk result (λ nodes. (v : ℕ) → IsMarked marked.now v → IsOn nodes.items v) }
{
    let mut nodes = Vec::new(alloc);
    let mut node = 0u32;
    for is_marked in marked {
        push_if(&mut nodes, node, *is_marked)?;
        node = node.checked_add(1).ok_or(OutOfMemory)?;
    }
    Ok(nodes)
}

/// The marked nodes are reached, and wait.
fn begin<'a>(
    alloc: Global,
    edges: &'a [Edge],
    marked: &'a [bool],
) -> Result<Spread<'a>, OutOfMemory>
    requires { AreAmong (length marked.now) edges.now }
    ensures held { IfOk result (λ s. IsSpread s 0 0) }
    ensures linked { IfOk result (λ s. IsLinked s) }
    ensures edges { IfOk result (λ s. s.edges.now ≡ edges.entry.now) }
    ensures marked { IfOk result (λ s. s.marked.now ≡ marked.entry.now) }
{
    let nodes = u32::try_from(marked.len()).map_err(|_| OutOfMemory)?;
    let chains = chains_of(alloc, nodes, edges)?;
    let pending = marked_nodes(alloc, marked)?;
    let reached = Vec::from_slice(alloc, marked)?;
    Ok(Spread {
        edges,
        marked,
        last: chains.last,
        previous: chains.previous,
        reached,
        pending,
    })
}

/// The nodes that marked nodes reach, the marked ones among them, as marks. There is a mark for each node. It takes time linear in nodes and edges.
///
/// The ends of the edges are below the number of nodes.
pub fn reached(alloc: Global, edges: &[Edge], marked: &[bool]) -> Result<Vec<bool>, OutOfMemory>
    requires { AreAmong (length marked.now) edges.now }
    ensures length { IfOk result (λ marks. length marks.items ≡ length marked.now) }
    ensures reached { IfOk result (λ marks. (v : ℕ) → IsMarked marks.items v ↔ IsReached edges.now marked.now v) }
{
    let mut spread = begin(alloc, edges, marked)?;
    spread.follow_pending()?;
    Ok(spread.reached)
}
