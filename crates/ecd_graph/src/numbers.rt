//! The numbers of strongly connected components.

ghost use Rattle.std.specs.Prelude.{◌≡◌, ◌<◌, ℕ, IfOk, OnOk, length};
ghost use Rattle.ecd_graph.specs.Graphs.{AreAmong, NumbersComponents, AreInOrder};
ghost use Rattle.ecd_graph.specs.Searches.{IsHeld, IsSound, IsComplete, AreNumbersOf};

use crate::chains::chains_of;
use crate::edge::Edge;
use crate::search::{Mark, Search};
use ecd_list::OutOfMemory;
use std::alloc::Global;

/// A search that has met no node.
fn begin<'a>(alloc: Global, nodes: u32, edges: &'a [Edge]) -> Result<Search<'a>, OutOfMemory>
    requires { AreAmong nodes edges.now }
    ensures held { IfOk result (λ s. IsHeld s) }
    ensures sound { IfOk result (λ s. IsSound s) }
    ensures nodes { IfOk result (λ s. length s.marks.items ≡ nodes) }
    ensures edges { IfOk result (λ s. s.edges.now ≡ edges.entry.now) }
    ensures idle { IfOk result (λ s. length s.path.items ≡ 0) }
{
    let chains = chains_of(alloc, nodes, edges)?;
    let marks = vec![in alloc; Mark::Unseen; nodes as usize]?;
    Ok(Search {
        edges,
        previous: chains.previous,
        marks,
        cursors: chains.last,
        pending: Vec::new(alloc),
        roots: Vec::new(alloc),
        path: Vec::new(alloc),
        count: 0,
    })
}

/// Searches from every node.
fn run(search: &mut Search, nodes: u32) -> Result<(), OutOfMemory>
    requires held { IsHeld search.old }
    requires sound { IsSound search.old }
    requires nodes { length search.old.marks.items ≡ nodes }
    requires idle { length search.old.path.items ≡ 0 }
    ensures complete { OnOk result (IsComplete search.new) }
    ensures edges { OnOk result (search.new.edges.now ≡ search.old.edges.now) }
    ensures nodes { OnOk result (length search.new.marks.items ≡ nodes) }
{
    for node in 0..nodes {
        search.visit(node)?;
    }
    Ok(())
}

/// The numbers of the nodes of a search that is complete.
fn numbers_of(alloc: Global, search: &Search) -> Result<Vec<u32>, OutOfMemory>
    requires { IsComplete search.now }
    ensures { IfOk result (λ numbers. AreNumbersOf search.now.marks.items numbers.items) }
{
    let mut numbers = Vec::new(alloc);
    for mark in &search.marks {
        match mark {
            Mark::Done(number) => numbers.push(*number)?,
            _ => unreachable!(),
        }
    }
    Ok(numbers)
}

/// The strongly connected components of a graph with so many nodes: the number of each node's component.
///
/// Two nodes have one number where each reaches the other, and no node reaches one of a greater number. It takes time linear in nodes and edges.
///
/// The ends of the edges are below the number of nodes.
pub fn components(alloc: Global, nodes: u32, edges: &[Edge]) -> Result<Vec<u32>, OutOfMemory>
    requires { AreAmong nodes edges.now }
    ensures length { IfOk result (λ numbers. length numbers.items ≡ nodes) }
    ensures components { IfOk result (λ numbers. NumbersComponents nodes edges.now numbers.items) }
    ensures order { IfOk result (λ numbers. AreInOrder nodes edges.now numbers.items) }
{
    let mut search = begin(alloc, nodes, edges)?;
    run(&mut search, nodes)?;
    let numbers = numbers_of(alloc, &search)?;
    Ok(numbers)
}
