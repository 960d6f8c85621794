//! Edges.

ghost use Rattle.std.specs.Prelude.{◌≡◌, ◌↔◌, ◌++◌, true, OnOk, OnErr};
ghost use Rattle.ecd_graph.specs.Edges.{edge_between};
ghost use Rattle.ecd_graph.specs.Graphs.{AreAmong};

use ecd_list::OutOfMemory;

/// An edge of a directed graph, from one node to another. Nodes are numbers from 0.
#[derive(Clone, Copy, Debug, PartialEq, Eq)]
pub struct Edge {
    pub from: u32,
    pub to: u32,
}

/// Whether the ends of all edges are below the number of nodes. It takes no memory.
pub fn are_among(nodes: u32, edges: &[Edge]) -> bool
    ensures { (result ≡ true) ↔ AreAmong nodes edges.now }
{
    for edge in edges {
        if edge.from >= nodes || edge.to >= nodes {
            return false;
        }
    }
    true
}

/// Adds an edge behind the others, where both ends are there, and else nothing.
///
/// # Errors
///
/// `OutOfMemory` where a growth was refused. The edges are then as they were.
pub fn add_edge(
    edges: &mut Vec<Edge>,
    from: Option<u32>,
    to: Option<u32>,
) -> Result<(), OutOfMemory>
    ensures added { OnOk result (edges.new.items ≡ edges.old.items ++ edge_between from to) }
    ensures kept { OnErr result (edges.new.items ≡ edges.old.items) }
{
    if let Some(from) = from {
        if let Some(to) = to {
            edges.push(Edge { from, to })?;
        }
    }
    Ok(())
}
