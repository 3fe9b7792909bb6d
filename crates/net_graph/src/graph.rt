// The graph of a design's nodes.

ghost use Rattle.std.specs.Prelude.{◌≡◌, ℕ, ◌+◌, ◌<◌, ◌≤◌, ◌^◌, [], ◌∷◌, ◌++◌, map, length, IfOk, nat_eq, vec_len, get_or, slice_get, Some, replicate, slice_set};
ghost use Rattle.std.specs.List.{All};
ghost use Rattle.vf_base.specs.Base.{object_number, node_number};
ghost use Rattle.vf_base.specs.Lists.{has, without_repeats, fresh_only};
ghost use Rattle.v_design.specs.PlainDesigns.{design_of};
ghost use Rattle.v_design.specs.WellFormed.{rank_of};
ghost use Rattle.net_graph.specs.Tables.{distinct_inputs, distinct_inputs_at, before_if, readers_of, object_lists, node_lists, ListReaders};
ghost use Rattle.net_graph.specs.TableLaws.{InputsAdded};

use crate::rank::design_ranks;
use std::alloc::Global;
use v_design::Design;
use vf_base::{NoMemory, NodeId, ObjectId};

/// The graph of a design's nodes: what each node reads, and who reads each object.
#[derive(Drop)]
pub struct Graph<'d> {
    /// The design for which the graph was made.
    pub design: &'d Design,
    inputs: Vec<Vec<ObjectId>>,
    readers: Vec<Vec<NodeId>>,
    ranks: Vec<u32>,
    pub ghost inputs_once: { object_lists inputs.items ≡ map distinct_inputs (design_of design.now).nodes },
    pub ghost readers_count: { vec_len readers ≡ length (design_of design.now).objects },
    pub ghost readers_listed: { ListReaders (design_of design.now) (node_lists readers.items) },
    pub ghost ranked: { ranks.items ≡ map (rank_of (design_of design.now)) (design_of design.now).nodes },
}

impl<'d> Graph<'d> {
    /// The graph of a design.
    pub fn new(alloc: Global, design: &'d Design) -> Result<Graph<'d>, NoMemory>
        ensures { IfOk result (λ graph. graph.design.now ≡ design.now) }
    {
        let objects = design.objects.as_slice().len();
        let mut seen = vec![in alloc; 0u32; objects]?;
        let mut readers = empty_lists(alloc, objects)?;
        let mut inputs = Vec::new(alloc);
        'nodes: for (number, node) in design.nodes.as_slice().iter().enumerate() {
            let node_inputs = node.inputs.as_slice();
            let once = add_inputs(
                alloc,
                NodeId(number as u32),
                node_inputs,
                &mut seen,
                &mut readers,
            )?;
            inputs.push(once)?;
        }
        let ranks = design_ranks(alloc, design)?;
        Ok(Graph {
            design,
            inputs,
            readers,
            ranks,
        })
    }

    /// The inputs of a node, each once.
    pub(crate) fn inputs_of(&self, node: usize) -> &[ObjectId]
        requires { node < length (design_of self.now.design.now).nodes }
        ensures { map object_number result.now ≡ distinct_inputs_at (design_of self.now.design.now) node }
    {
        &self.inputs[node]
    }

    /// The nodes that read an object, in ascending order.
    pub fn readers(&self, object: ObjectId) -> &[NodeId]
        requires { object_number object < length (design_of self.now.design.now).objects }
        ensures { map node_number result.now ≡ readers_of (design_of self.now.design.now) (object_number object) }
    {
        &self.readers[object.0 as usize]
    }

    /// The rank of a node: one more than the greatest rank of a node that drives one of its inputs, and 0 where there is none.
    pub fn rank(&self, node: NodeId) -> u32
        requires { node_number node < length (design_of self.now.design.now).nodes }
        ensures { result ≡ get_or (map (rank_of (design_of self.now.design.now)) (design_of self.now.design.now).nodes) (node_number node) 0 }
    {
        self.ranks[node.0 as usize]
    }
}

/// So many empty lists.
fn empty_lists(alloc: Global, count: usize) -> Result<Vec<Vec<NodeId>>, NoMemory>
    ensures { IfOk result (λ lists. node_lists lists.items ≡ replicate count []) }
{
    let mut lists = Vec::new(alloc);
    'lists: for _ in 0..count {
        lists.push(Vec::new(alloc))?;
    }
    Ok(lists)
}

/// One input of a node: where the node hasn't been seen to read the object, it is put among the object's readers, and the object among the
/// node's inputs. What was seen is kept as the node's number and one.
fn add_input(
    object: ObjectId,
    node: NodeId,
    seen: &mut Vec<u32>,
    once: &mut Vec<ObjectId>,
    readers: &mut Vec<Vec<NodeId>>,
) -> Result<(), NoMemory>
    requires is_node { node_number node + 1 < 2 ^ 32 }
    requires is_seen { object_number object < vec_len seen.old }
    requires is_object { object_number object < vec_len readers.old }
    ensures marked { IfOk result (λ _. seen.new.items ≡ slice_set seen.old.items (object_number object) (node_number node + 1)) }
    ensures taken { IfOk result (λ _. map object_number once.new.items ≡ map object_number once.old.items ++ fresh_only (nat_eq (get_or seen.old.items
        (object_number object) 0) (node_number node + 1)) (object_number object) []) }
    ensures listed { IfOk result (λ _. node_lists readers.new.items ≡ slice_set (node_lists readers.old.items) (object_number object) (get_or
        (node_lists readers.old.items) (object_number object) [] ++ fresh_only (nat_eq (get_or seen.old.items (object_number object) 0) (node_number node + 1)) (node_number node) [])) }
    ensures same { IfOk result (λ _. vec_len readers.new ≡ vec_len readers.old) }
{
    let at = object.0 as usize;
    let stamp = node.0 + 1;
    if seen[at] != stamp {
        once.push(object)?;
        readers[at].push(node)?;
        seen[at] = stamp;
    }
    Ok(())
}

/// The inputs of a node, each once; the node is put among the readers of each.
fn add_inputs(
    alloc: Global,
    node: NodeId,
    inputs: &[ObjectId],
    seen: &mut Vec<u32>,
    readers: &mut Vec<Vec<NodeId>>,
) -> Result<Vec<ObjectId>, NoMemory>
    requires is_node { node_number node + 1 < 2 ^ 32 }
    requires are_objects { All (λ input. object_number input < vec_len seen.old) inputs.now }
    requires alike { vec_len seen.old ≡ vec_len readers.old }
    requires unseen { (o : ℕ) → o < length seen.old.items → get_or seen.old.items o 0 ≤ node_number node }
    ensures added { IfOk result (λ once. InputsAdded (node_number node) (map object_number inputs.now) (node_lists readers.old.items) seen.new.items
        (map object_number once.items) (node_lists readers.new.items)) }
    ensures same { IfOk result (λ _. vec_len seen.new ≡ vec_len seen.old) }
    ensures same_readers { IfOk result (λ _. vec_len readers.new ≡ vec_len readers.old) }
{
    let mut once = Vec::new(alloc);
    'inputs: for input in inputs {
        add_input(*input, node, seen, &mut once, readers)?;
    }
    Ok(once)
}
