//! Graphs with known components.

use ecd_graph::{Edge, are_among, components, reached};
use std::alloc::Global;
use std::test::Fail;

fn edge(from: u32, to: u32) -> Edge {
    Edge { from, to }
}

/// The numbers of the components, or none where an edge has an end that is no node.
fn numbers_of(alloc: Global, nodes: u32, edges: &[Edge]) -> Result<Vec<u32>, Fail> {
    if are_among(nodes, edges) {
        let numbers = components(alloc, nodes, edges)?;
        Ok(numbers)
    } else {
        Ok(Vec::new(alloc))
    }
}

#[test]
fn nodes_of_one_cycle_have_one_number(rt: HostRuntime) -> Result<(), Fail> {
    let edges = [edge(0, 1), edge(1, 2), edge(2, 0), edge(2, 3)];
    let numbers = numbers_of(rt.alloc(), 4, &edges)?;
    assert_eq!(rt; numbers.as_slice(), [1, 1, 1, 0].as_slice());
    Ok(())
}

#[test]
fn a_chain_is_numbered_from_its_end(rt: HostRuntime) -> Result<(), Fail> {
    let edges = [edge(0, 1), edge(1, 2), edge(2, 3)];
    let numbers = numbers_of(rt.alloc(), 4, &edges)?;
    assert_eq!(rt; numbers.as_slice(), [3, 2, 1, 0].as_slice());
    Ok(())
}

#[test]
fn two_cycles_with_a_way_between_them_stay_two(rt: HostRuntime) -> Result<(), Fail> {
    let edges = [
        edge(0, 1),
        edge(1, 0),
        edge(1, 2),
        edge(2, 3),
        edge(3, 4),
        edge(4, 3),
    ];
    let numbers = numbers_of(rt.alloc(), 5, &edges)?;
    assert_eq!(rt; numbers.as_slice(), [2, 2, 1, 0, 0].as_slice());
    Ok(())
}

#[test]
fn two_ways_to_a_node_are_no_cycle(rt: HostRuntime) -> Result<(), Fail> {
    let edges = [edge(0, 1), edge(0, 2), edge(1, 3), edge(2, 3)];
    let numbers = numbers_of(rt.alloc(), 4, &edges)?;
    assert_eq!(rt; numbers.as_slice(), [3, 2, 1, 0].as_slice());
    Ok(())
}

#[test]
fn a_node_that_leads_to_itself_and_one_alone(rt: HostRuntime) -> Result<(), Fail> {
    let edges = [edge(1, 1)];
    let numbers = numbers_of(rt.alloc(), 2, &edges)?;
    assert_eq!(rt; numbers.as_slice(), [0, 1].as_slice());
    Ok(())
}

#[test]
fn no_nodes_have_no_numbers(rt: HostRuntime) -> Result<(), Fail> {
    let numbers = numbers_of(rt.alloc(), 0, &[])?;
    assert_eq!(rt; numbers.len(), 0);
    Ok(())
}

#[test]
fn an_edge_to_no_node_is_seen(rt: HostRuntime) -> Result<(), Fail> {
    assert_eq!(rt; are_among(2, &[edge(0, 1)]), true);
    assert_eq!(rt; are_among(2, &[edge(0, 2)]), false);
    assert_eq!(rt; are_among(2, &[edge(2, 0)]), false);
    Ok(())
}

/// The nodes that the marked ones reach, or none where an edge has an end that is no node.
fn reached_by(alloc: Global, edges: &[Edge], marked: &[bool]) -> Result<Vec<bool>, Fail> {
    match u32::try_from(marked.len()) {
        Ok(nodes) if are_among(nodes, edges) => {
            let marks = reached(alloc, edges, marked)?;
            Ok(marks)
        }
        _ => Ok(Vec::new(alloc)),
    }
}

#[test]
fn a_marked_node_reaches_what_it_leads_to(rt: HostRuntime) -> Result<(), Fail> {
    let edges = [edge(0, 1), edge(1, 2), edge(3, 1), edge(2, 0)];
    let marks = reached_by(rt.alloc(), &edges, &[false, true, false, false, false])?;
    assert_eq!(rt;
        marks.as_slice(),
        [true, true, true, false, false].as_slice()
    );
    Ok(())
}

#[test]
fn all_edges_of_a_node_are_followed(rt: HostRuntime) -> Result<(), Fail> {
    let edges = [edge(0, 1), edge(0, 2), edge(0, 3)];
    let marks = reached_by(rt.alloc(), &edges, &[true, false, false, false])?;
    assert_eq!(rt; marks.as_slice(), [true, true, true, true].as_slice());
    Ok(())
}

#[test]
fn no_marks_reach_nothing(rt: HostRuntime) -> Result<(), Fail> {
    let edges = [edge(0, 1), edge(1, 0)];
    let marks = reached_by(rt.alloc(), &edges, &[false, false])?;
    assert_eq!(rt; marks.as_slice(), [false, false].as_slice());
    Ok(())
}
