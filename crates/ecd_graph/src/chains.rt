//! The edges from each node, as chains.

ghost use Rattle.std.specs.Prelude.{◌≡◌, ◌<◌, ◌^◌, ℕ, IfOk, length, get_or};
ghost use Rattle.ecd_graph.specs.Graphs.{AreAmong};
ghost use Rattle.ecd_graph.specs.Chains.{IsLast, ArePrevious};

use crate::edge::Edge;
use ecd_list::OutOfMemory;
use std::alloc::Global;

/// The edges from each node, linked from the last to the first. A link is an edge's number and one, and 0 is none.
#[derive(Debug, Drop)]
pub(crate) struct Chains {
    /// For each node its last edge.
    pub(crate) last: Vec<u32>,
    /// For each edge the one before it from the same node.
    pub(crate) previous: Vec<u32>,
}

/// The chains of the edges.
pub(crate) fn chains_of(alloc: Global, nodes: u32, edges: &[Edge]) -> Result<Chains, OutOfMemory>
    requires { AreAmong nodes edges.now }
    ensures nodes { IfOk result (λ c. length c.last.items ≡ nodes) }
    ensures edges { IfOk result (λ c. length c.previous.items ≡ length edges.now) }
    ensures last { IfOk result (λ c. (v : ℕ) → v < nodes → IsLast edges.now v (length edges.now) (get_or c.last.items v 0)) }
    ensures previous { IfOk result (λ c. ArePrevious edges.now c.previous.items) }
{
    let mut last = vec![in alloc; 0u32; nodes as usize]?;
    let mut previous = Vec::new(alloc);
    let mut link = 0u32;
    for edge in edges {
        link = link.checked_add(1).ok_or(OutOfMemory)?;
        previous.push(last[edge.from as usize])?;
        last[edge.from as usize] = link;
    }
    Ok(Chains { last, previous })
}
