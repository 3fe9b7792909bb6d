// The cone of a net piece: the variables and memory words that reach it.

ghost use Rattle.std.specs.Prelude.{◌≡◌, ℕ, ◌<◌, ◌≤◌, ◌&&◌, ◌++◌, [], true, false, map, length, IfOk, vec_len, get_or, not, nat_eq};
ghost use Rattle.std.specs.List.{All, list_any};
ghost use Rattle.vf_base.specs.Base.{object_number};
ghost use Rattle.v_design.specs.Paths.{cone, is_net};
ghost use Rattle.v_design.specs.PlainDesigns.{design_of};
ghost use Rattle.net_graph.specs.ConeLaws.{Marks, AreReached, ReachSome};
ghost use Rattle.net_graph.specs.Tables.{before_if};

use crate::graph::Graph;
use std::alloc::Global;
use v_design::{Design, Node, ObjectKind};
use vf_base::{NoMemory, ObjectId};

/// Whether one of some objects is marked.
fn some_marked(objects: &[ObjectId], marked: &Vec<bool>) -> bool
    requires { All (λ object. object_number object < vec_len marked.now) objects.now }
    ensures { result ≡ list_any (λ object. get_or marked.now.items object false) (map object_number objects.now) }
{
    'objects: for object in objects {
        if marked[object.0 as usize] {
            return true;
        }
    }
    false
}

/// Marks some objects.
fn mark_all(objects: &[ObjectId], marked: &mut Vec<bool>)
    requires { All (λ object. object_number object < vec_len marked.old) objects.now }
    ensures same { vec_len marked.new ≡ vec_len marked.old }
    ensures marked { Marks (map object_number objects.now) marked.old.items marked.new.items }
{
    'objects: for object in objects {
        marked[object.0 as usize] = true;
    }
}

/// Marks the inputs of a node of which an output is marked.
fn mark_node(node: &Node, marked: &mut Vec<bool>)
    requires inputs { All (λ input. object_number input < vec_len marked.old) node.now.inputs }
    requires outputs { All (λ output. object_number output < vec_len marked.old) node.now.outputs }
    ensures same { vec_len marked.new ≡ vec_len marked.old }
    ensures marked { list_any (λ object. get_or marked.old.items object false) (map object_number node.now.outputs) ≡ true →
        Marks (map object_number node.now.inputs) marked.old.items marked.new.items }
    ensures kept { list_any (λ object. get_or marked.old.items object false) (map object_number node.now.outputs) ≡ false → marked.new.items ≡ marked.old.items }
{
    let inputs = node.inputs.as_slice();
    if some_marked(node.outputs.as_slice(), marked) {
        mark_all(inputs, marked);
    }
}

/// Marks besides the objects that reach a marked one, from the last node back.
fn mark_sources(design: &Design, marked: &mut Vec<bool>)
    requires { vec_len marked.old ≡ length (design_of design.now).objects }
    ensures same { vec_len marked.new ≡ vec_len marked.old }
    ensures reached { AreReached (design_of design.now).nodes 0 (λ o. get_or marked.old.items o false) marked.new.items }
{
    let nodes = design.nodes.as_slice();
    let mut left = nodes.len();
    'nodes: while left > 0 {
        left -= 1;
        mark_node(&nodes[left], marked);
    }
}

/// Marks the objects that reach a net piece.
fn mark_reaching(design: &Design, net: ObjectId, marked: &mut Vec<bool>)
    requires sized { vec_len marked.old ≡ length (design_of design.now).objects }
    requires is_net { object_number net < vec_len marked.old }
    requires blank { (o : ℕ) → o < length marked.old.items → get_or marked.old.items o false ≡ false }
    ensures same { vec_len marked.new ≡ vec_len marked.old }
    ensures reached { AreReached (design_of design.now).nodes 0 (λ o. nat_eq o (object_number net)) marked.new.items }
{
    marked[net.0 as usize] = true;
    mark_sources(design, marked);
}

/// Whether an object is a variable or a memory word, and marked.
fn is_marked_source(kind: ObjectKind, marked: bool) -> bool
    ensures { result ≡ (not (is_net kind) && marked) }
{
    match kind {
        ObjectKind::Var => marked,
        ObjectKind::Word => marked,
        ObjectKind::Net => false,
    }
}

/// One more object of a list, where it is wanted.
fn push_if(wanted: bool, object: ObjectId, list: &mut Vec<ObjectId>) -> Result<(), NoMemory>
    ensures { IfOk result (λ _. map object_number list.new.items ≡ map object_number list.old.items ++ before_if wanted (object_number object) []) }
{
    if wanted {
        list.push(object)?;
    }
    Ok(())
}

impl<'d> Graph<'d> {
    /// The variables and memory words that reach a net piece through nodes, in ascending order.
    pub fn sources(&self, alloc: Global, net: ObjectId) -> Result<Vec<ObjectId>, NoMemory>
        requires { object_number net < length (design_of self.now.design.now).objects }
        ensures { IfOk result (λ sources. map object_number sources.items ≡ cone (design_of self.now.design.now) (object_number net)) }
    {
        let objects = self.design.objects.as_slice();
        let mut marked = vec![in alloc; false; objects.len()]?;
        mark_reaching(self.design, net, &mut marked);
        let mut sources = Vec::new(alloc);
        'objects: for (number, object) in objects.iter().enumerate() {
            let wanted = is_marked_source(object.kind, marked[number]);
            push_if(wanted, ObjectId(number as u32), &mut sources)?;
        }
        Ok(sources)
    }

    /// For each object whether a path of nodes leads from it to one of some objects.
    pub fn reaching(&self, alloc: Global, nets: &[ObjectId]) -> Result<Vec<bool>, NoMemory>
        requires { All (λ net. object_number net < length (design_of self.now.design.now).objects) nets.now }
        ensures count { IfOk result (λ marked. vec_len marked ≡ length (design_of self.now.design.now).objects) }
        ensures reaching { IfOk result (λ marked. ReachSome (design_of self.now.design.now) (map object_number nets.now) marked.items) }
    {
        let mut marked = vec![in alloc; false; self.design.objects.as_slice().len()]?;
        mark_all(nets, &mut marked);
        mark_sources(self.design, &mut marked);
        Ok(marked)
    }
}
