// The nodes that are still to be evaluated.

ghost use Rattle.std.specs.Prelude.{◌≡◌, ℕ, ◌<◌, ◌≤◌, true, false, length, map, IfOk, IsTrue, ◌↔◌, MatchOption, vec_len, slice_set};
ghost use Rattle.std.specs.List.{All};
ghost use Rattle.vf_base.specs.Base.{object_number, node_number};
ghost use Rattle.vf_base.specs.Lists.{has};
ghost use Rattle.v_design.specs.PlainDesigns.{design_of};
ghost use Rattle.net_graph.specs.ConeLaws.{Marks};
ghost use Rattle.net_settle.specs.Marked.{marked_at, MarksReaders, NoneMarked, IsLeastMarked, TakesLeast};

use net_graph::Graph;
use std::alloc::Global;
use v_design::View;
use vf_base::{NoMemory, NodeId, ObjectId};

/// The marked nodes of a design: those that are still to be evaluated.
#[derive(Drop)]
pub struct Settle<'d> {
    /// The graph for which the marks were made.
    pub graph: &'d Graph<'d>,
    marks: Vec<bool>,
    least: usize,
    past: usize,
    pub ghost sized: { vec_len marks ≡ length (design_of graph.now.design.now).nodes },
    pub ghost in_order: { least ≤ past },
    pub ghost within: { past ≤ vec_len marks },
    pub ghost none_below: { (node : ℕ) → node < least → marked_at marks.items node ≡ false },
    pub ghost none_past: { (node : ℕ) → past ≤ node → marked_at marks.items node ≡ false },
}

/// The first marked node between two places, or the second place where there is none.
fn first_marked(marks: &Vec<bool>, from: usize, past: usize) -> usize
    requires in_order { from ≤ past }
    requires within { past ≤ vec_len marks.now }
    ensures low { from ≤ result }
    ensures high { result ≤ past }
    ensures none { (node : ℕ) → from ≤ node → node < result → marked_at marks.now.items node ≡ false }
    ensures found { result < past → marked_at marks.now.items result ≡ true }
{
    for at in from..past {
        if marks[at] {
            return at;
        }
    }
    past
}

/// Marks some nodes.
fn mark_nodes(nodes: &[NodeId], marks: &mut Vec<bool>)
    requires { All (λ node. node_number node < vec_len marks.old) nodes.now }
    ensures same { vec_len marks.new ≡ vec_len marks.old }
    ensures marked { Marks (map node_number nodes.now) marks.old.items marks.new.items }
{
    'nodes: for node in nodes {
        marks[node.0 as usize] = true;
    }
}

/// The least of a number and of those of some nodes.
fn least_of(nodes: &[NodeId], least: usize) -> usize
    ensures low { result ≤ least }
    ensures lower { (node : ℕ) → has (map node_number nodes.now) node ≡ true → result ≤ node }
{
    let mut lowest = least;
    'nodes: for node in nodes {
        lowest = lowest.min(node.0 as usize);
    }
    lowest
}

/// The least number that is past some number and past those of some nodes.
fn past_of(nodes: &[NodeId], past: usize, count: usize) -> usize
    requires are_nodes { All (λ node. node_number node < count) nodes.now }
    requires within { past ≤ count }
    ensures high { past ≤ result }
    ensures within { result ≤ count }
    ensures higher { (node : ℕ) → has (map node_number nodes.now) node ≡ true → node < result }
{
    let mut highest = past;
    'nodes: for node in nodes {
        highest = highest.max(node.0 as usize + 1);
    }
    highest
}

/// The end of the places at which marks may stand, so that looks stay short: the old end, or where no such place is left, a first one.
fn end_of(least: usize, past: usize, first: usize) -> usize
    requires in_order { least ≤ past }
    requires first { first ≤ least }
    ensures low { first ≤ result }
    ensures high { result ≤ past }
    ensures between { (node : ℕ) → result ≤ node → node < past → node < least }
{
    if least == past { first } else { past }
}

impl<'d> Settle<'d> {
    /// The marks of a design, of which every node is marked.
    pub fn new(alloc: Global, view: &View, graph: &'d Graph<'d>) -> Result<Settle<'d>, NoMemory>
        requires { graph.now.design.now ≡ view.now.design.now }
        ensures belongs { IfOk result (λ settle. settle.graph.now.design.now ≡ graph.now.design.now) }
        ensures all { IfOk result (λ settle. (node : ℕ) → node < length (design_of graph.now.design.now).nodes → marked_at settle.marks.items node ≡ true) }
    {
        let nodes = view.design.nodes.as_slice().len();
        Ok(Settle {
            graph,
            marks: vec![in alloc; true; nodes]?,
            least: 0,
            past: nodes,
        })
    }

    /// The marks of a design whose nets are settled: no node is marked.
    ///
    /// # Errors
    ///
    /// Want of memory.
    pub fn settled(alloc: Global, graph: &'d Graph<'d>) -> Result<Settle<'d>, NoMemory>
        ensures belongs { IfOk result (λ settle. settle.graph.now.design.now ≡ graph.now.design.now) }
        ensures none { IfOk result (λ settle. NoneMarked settle.marks.items) }
    {
        let nodes = graph.design.nodes.as_slice().len();
        Ok(Settle {
            graph,
            marks: vec![in alloc; false; nodes]?,
            least: 0,
            past: 0,
        })
    }

    /// Marks the nodes that read an object, which has changed.
    pub fn change(&mut self, object: ObjectId)
        requires { object_number object < length (design_of self.old.graph.now.design.now).objects }
        ensures belongs { self.new.graph.now ≡ self.old.graph.now }
        ensures readers { MarksReaders (design_of self.old.graph.now.design.now) (object_number object) self.old.marks.items self.new.marks.items }
    {
        let readers = self.graph.readers(object);
        let least = least_of(readers, self.least);
        let end = end_of(self.least, self.past, least);
        let past = past_of(readers, end, self.marks.len());
        mark_nodes(readers, &mut self.marks);
        self.least = least;
        self.past = past;
    }

    /// Whether no node is marked.
    pub fn is_settled(&self) -> bool
        ensures { IsTrue result ↔ NoneMarked self.now.marks.items }
    {
        first_marked(&self.marks, self.least, self.past) == self.past
    }

    /// The least marked node; none where no node is marked. It changes no mark, and a later look begins where this one ended.
    pub fn least_marked(&mut self) -> Option<NodeId>
        ensures belongs { self.new.graph.now ≡ self.old.graph.now }
        ensures same { self.new.marks.items ≡ self.old.marks.items }
        ensures least { MatchOption result (NoneMarked self.old.marks.items) (λ node. IsLeastMarked (node_number node) self.old.marks.items) }
    {
        let least = first_marked(&self.marks, self.least, self.past);
        self.least = least;
        if least == self.past {
            return None;
        }
        Some(NodeId(least as u32))
    }

    /// Takes away the mark of a node.
    pub fn unmark(&mut self, node: NodeId)
        requires { node_number node < length (design_of self.old.graph.now.design.now).nodes }
        ensures belongs { self.new.graph.now ≡ self.old.graph.now }
        ensures unmarked { self.new.marks.items ≡ slice_set self.old.marks.items (node_number node) false }
    {
        self.marks[node.0 as usize] = false;
    }

    /// Takes away the least mark and gives its node; none where no node is marked.
    pub fn work(&mut self) -> Option<NodeId>
        ensures belongs { self.new.graph.now ≡ self.old.graph.now }
        ensures least { MatchOption result (NoneMarked self.old.marks.items ×
            (self.new.marks.items ≡ self.old.marks.items)) (λ node. TakesLeast (node_number node) self.old.marks.items self.new.marks.items) }
    {
        let found = first_marked(&self.marks, self.least, self.past);
        if found == self.past {
            return None;
        }
        self.marks[found] = false;
        self.least = found + 1;
        Some(NodeId(found as u32))
    }
}
