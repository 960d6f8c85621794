//! The search for strongly connected components: depth first, by paths (Gabow, 2000).

ghost use Rattle.std.specs.Prelude.{◌≡◌, ◌≤◌, ◌<◌, ◌+◌, ◌-◌, ◌∷◌, ◌++◌, [], ℕ, suc, true, OnOk, List, length, get_or, slice_get, slice_set, take, Some};
ghost use Rattle.ecd_graph.specs.declared.edge.Edge.{Edge as AnEdge};
ghost use Rattle.ecd_graph.specs.declared.search.Mark.TheVariants.{Unseen, Open, Done};
ghost use Rattle.ecd_graph.specs.Graphs.{Reaches, AreAmong};
ghost use Rattle.ecd_graph.specs.Searches.{IsHeld, IsSound, Stays, IsEntered, IsJoined, IsMet, IsTop, IsNumbered, Leads, LeadsBack, mark, slot, work};

use crate::edge::Edge;
use ecd_list::OutOfMemory;

/// What is known of a node.
#[derive(Clone, Copy, Debug, PartialEq, Eq)]
pub(crate) enum Mark {
    /// It was not met.
    Unseen,
    /// It was met, and its component is not complete: its place among the pending nodes.
    Open(u32),
    /// The number of its component.
    Done(u32),
}

/// A search, as far as it has come.
#[derive(Debug, Drop)]
pub(crate) struct Search<'a> {
    pub(crate) edges: &'a [Edge],
    /// For each edge the link of the one before it from the same node.
    pub(crate) previous: Vec<u32>,
    pub(crate) marks: Vec<Mark>,
    /// For each node the link of the next edge to follow.
    pub(crate) cursors: Vec<u32>,
    /// The nodes whose component is not complete.
    pub(crate) pending: Vec<u32>,
    /// The places among the pending nodes where a component begins.
    pub(crate) roots: Vec<u32>,
    /// The nodes whose edges are being followed.
    pub(crate) path: Vec<u32>,
    /// The number of complete components.
    pub(crate) count: u32,
}

/// Whether the last of the numbers is this one.
fn ends_with(numbers: &[u32], number: u32) -> bool
    ensures some { result ≡ true → 0 < length numbers.now }
    ensures last { (k : ℕ) → suc k ≡ length numbers.now → result ≡ true → slot numbers.now k ≡ number }
    ensures other { (k : ℕ) → suc k ≡ length numbers.now → slot numbers.now k ≡ number → result ≡ true }
{
    match numbers.last() {
        Some(last) => *last == number,
        None => false,
    }
}

impl<'a> Search<'a> {
    /// Opens a node that was not met, as the last of the path.
    fn enter(&mut self, node: u32) -> Result<(), OutOfMemory>
        requires held { IsHeld self.old }
        requires among { node < length self.old.marks.items }
        requires unseen { mark self.old.marks.items node ≡ Unseen }
        requires reached { (i : ℕ) → i < length self.old.pending.items → Reaches self.old.edges.now (slot self.old.pending.items i) node }
        ensures held { OnOk result (IsHeld self.new) }
        ensures stays { OnOk result (Stays self.old self.new) }
        ensures entered { OnOk result (IsEntered node self.old self.new) }
    {
        let place = u32::try_from(self.pending.len()).map_err(|_| OutOfMemory)?;
        self.pending.push(node)?;
        self.roots.push(place)?;
        self.path.push(node)?;
        self.marks[node as usize] = Mark::Open(place);
        Ok(())
    }

    /// Joins the components that begin behind the place to the one before them.
    fn join(&mut self, place: u32)
        requires held { IsHeld self.old }
        requires back { LeadsBack self.old place }
        ensures held { IsHeld self.new }
        ensures joined { IsJoined place self.old self.new }
    {
        while let Some(&root) = self.roots.last() {
            if root <= place {
                break;
            }
            self.roots.pop();
        }
    }

    /// Meets the node that an edge leads to.
    fn meet(&mut self, node: u32, target: u32) -> Result<(), OutOfMemory>
        requires held { IsHeld self.old }
        requires among { target < length self.old.marks.items }
        requires top { IsTop self.old node }
        requires leads { Leads self.old target }
        ensures held { OnOk result (IsHeld self.new) }
        ensures stays { OnOk result (Stays self.old self.new) }
        ensures met { OnOk result (IsMet node target self.old self.new) }
    {
        match self.marks[target as usize] {
            Mark::Unseen => self.enter(target)?,
            Mark::Open(place) => self.join(place),
            Mark::Done(_) => {}
        }
        Ok(())
    }

    /// Follows an edge of the last node of the path.
    fn follow(&mut self, node: u32, edge: u32) -> Result<(), OutOfMemory>
        requires held { IsHeld self.old }
        requires sound { IsSound self.old }
        requires top { IsTop self.old node }
        requires cursor { slot self.old.cursors.items node ≡ suc edge }
        ensures held { OnOk result (IsHeld self.new) }
        ensures stays { OnOk result (Stays self.old self.new) }
        ensures work { OnOk result (work self.new < work self.old) }
    {
        let target = self.edges[edge as usize].to;
        self.meet(node, target)?;
        self.cursors[node as usize] = self.previous[edge as usize];
        Ok(())
    }

    /// Numbers the open nodes from a place on, as a complete component.
    fn number_from(&mut self, place: u32)
        requires placed { (i : ℕ) → i < length self.old.pending.items → mark self.old.marks.items (slot self.old.pending.items i) ≡ Open i }
        requires stands { (v i : ℕ) → mark self.old.marks.items v ≡ Open i → (i < length self.old.pending.items) × (slot self.old.pending.items i ≡ v) }
        requires within { place ≤ length self.old.pending.items }
        ensures { IsNumbered place self.old self.new }
    {
        while self.pending.len() > place as usize {
            if let Some(node) = self.pending.pop() {
                self.marks[node as usize] = Mark::Done(self.count);
            }
        }
    }

    /// Completes the last component, which begins with the last node of the path, and leaves the node.
    fn complete(&mut self, node: u32, place: u32) -> Result<(), OutOfMemory>
        requires held { IsHeld self.old }
        requires top { IsTop self.old node }
        requires placed { mark self.old.marks.items node ≡ Open place }
        requires root { (k : ℕ) → suc k ≡ length self.old.roots.items → slot self.old.roots.items k ≡ place }
        requires some { 0 < length self.old.roots.items }
        requires spent { slot self.old.cursors.items node ≡ 0 }
        ensures held { OnOk result (IsHeld self.new) }
        ensures stays { OnOk result (Stays self.old self.new) }
        ensures work { OnOk result (work self.new < work self.old) }
    {
        let count = self.count.checked_add(1).ok_or(OutOfMemory)?;
        self.number_from(place);
        self.roots.pop();
        self.path.pop();
        self.count = count;
        Ok(())
    }

    /// Leaves the last node of the path, whose edges were all followed.
    fn leave(&mut self, node: u32) -> Result<(), OutOfMemory>
        requires held { IsHeld self.old }
        requires top { IsTop self.old node }
        requires spent { slot self.old.cursors.items node ≡ 0 }
        ensures held { OnOk result (IsHeld self.new) }
        ensures stays { OnOk result (Stays self.old self.new) }
        ensures work { OnOk result (work self.new < work self.old) }
    {
        let place = match self.marks[node as usize] {
            Mark::Open(place) => place,
            _ => unreachable!(),
        };
        if ends_with(self.roots.as_slice(), place) {
            self.complete(node, place)?;
        } else {
            self.path.pop();
        }
        Ok(())
    }

    /// Follows the next edge of the last node of the path, or leaves the node where it has none.
    fn step(&mut self, node: u32) -> Result<(), OutOfMemory>
        requires held { IsHeld self.old }
        requires sound { IsSound self.old }
        requires top { IsTop self.old node }
        ensures held { OnOk result (IsHeld self.new) }
        ensures stays { OnOk result (Stays self.old self.new) }
        ensures work { OnOk result (work self.new < work self.old) }
    {
        match self.cursors[node as usize].checked_sub(1) {
            Some(edge) => self.follow(node, edge),
            None => self.leave(node),
        }
    }

    /// Searches from a node that was not met, until no node is open.
    fn search_from(&mut self, node: u32) -> Result<(), OutOfMemory>
        requires held { IsHeld self.old }
        requires sound { IsSound self.old }
        requires idle { length self.old.path.items ≡ 0 }
        requires among { node < length self.old.marks.items }
        requires unseen { mark self.old.marks.items node ≡ Unseen }
        ensures held { OnOk result (IsHeld self.new) }
        ensures stays { OnOk result (Stays self.old self.new) }
        ensures idle { OnOk result (length self.new.path.items ≡ 0) }
        ensures met { OnOk result (mark self.new.marks.items node ≡ Unseen → ⊥) }
    {
        self.enter(node)?;
        while let Some(&last) = self.path.last() {
            self.step(last)?;
        }
        Ok(())
    }

    /// Completes the component of a node, and of all that it reaches.
    pub(crate) fn visit(&mut self, node: u32) -> Result<(), OutOfMemory>
        requires held { IsHeld self.old }
        requires sound { IsSound self.old }
        requires idle { length self.old.path.items ≡ 0 }
        requires among { node < length self.old.marks.items }
        ensures held { OnOk result (IsHeld self.new) }
        ensures stays { OnOk result (Stays self.old self.new) }
        ensures idle { OnOk result (length self.new.path.items ≡ 0) }
        ensures met { OnOk result (mark self.new.marks.items node ≡ Unseen → ⊥) }
    {
        match self.marks[node as usize] {
            Mark::Unseen => self.search_from(node)?,
            _ => {}
        }
        Ok(())
    }
}
