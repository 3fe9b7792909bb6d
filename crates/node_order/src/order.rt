// The order of the nodes of a design, and what is refused.

ghost use Rattle.std.specs.Prelude.{◌≡◌, ◌+◌, ◌<◌, ◌≤◌, map, length, slice_get, IfOk, Ok, Err, Some};
ghost use Rattle.vf_base.specs.Base.{object_number, source_place};
ghost use Rattle.v_design.specs.Plain.{node_of, object_of};
ghost use Rattle.v_design.specs.declared.plan.Object.{Object};
ghost use Rattle.v_design.specs.WellFormed.{most_parts, most_inputs};
ghost use Rattle.net_graph.specs.Loops.{AreAmong};
ghost use Rattle.v_elab.specs.declared.What.TheVariants.{Inputs};
ghost use Rattle.v_elab.specs.Refusals.{TooMany, LoopAt};
ghost use Rattle.v_elab.specs.Parts.{too_many_if};
ghost use Rattle.v_elab.specs.Flat.{some_inputs_over};
ghost use Rattle.node_order.specs.declared.order.NodesFault.TheVariants.{TooManyInputs, Loop};
ghost use Rattle.node_order.specs.NodeOrder.{ordered_nodes};
ghost use Rattle.node_order.specs.OrderLaws.{NodesGiveDesign};
ghost use Rattle.vf_base.specs.declared.ids.Place.{Place};

use crate::buckets::sorted_by_rank;
use net_graph::{RankFault, ranks};
use std::alloc::Global;
use thiserror::Error;
use v_design::{Node, Object};
use vf_base::{MAX_INPUTS, NoMemory, ObjectId, Place};

/// Why nodes make no design: one has more than 4096 inputs; an object reaches itself through nodes, the declaration of the least such object is told;
/// or want of memory.
#[derive(Clone, Copy, Debug, PartialEq, Eq, Error)]
pub enum NodesFault {
    #[error("a node has too many inputs")]
    TooManyInputs,
    #[error("what is declared at {0:?} reaches itself")]
    Loop(Place),
    #[error("out of memory")]
    NoMemory,
}

impl From<NoMemory> for NodesFault {
    ghost use Rattle.node_order.specs.declared.order.NodesFault.TheVariants.{NoMemory};
    ghost use Rattle.std.specs.Prelude.{◌≡◌};

    ghost from_gives = { λ _ fault. fault ≡ NoMemory };

    fn from(_: NoMemory) -> Self {
        NodesFault::NoMemory
    }
}

/// Whether a node has more inputs than a node may have.
fn some_crowded(nodes: &[Node]) -> bool
    ensures { some_inputs_over (map node_of nodes.now) ≡ too_many_if result Inputs most_inputs }
{
    'nodes: for node in nodes {
        if node.inputs.as_slice().len() as u64 > MAX_INPUTS {
            return true;
        }
    }
    false
}

/// Where an object is declared.
fn declared_at(objects: &[Object], object: ObjectId) -> Place
    requires { object_number object < length objects.now }
    ensures { (o : Object) → slice_get objects.now (object_number object) ≡ Some o → result ≡ o.place }
{
    objects[object.0 as usize].place
}

/// The nodes by rank, at equal rank in the order of the walk.
///
/// A node's rank is one more than the greatest rank of a node that drives one of its inputs, and 0 where there is none. `Err(TooManyInputs)` comes
/// exactly where a node has more than 4096 inputs, and else `Err(Loop)` exactly where an object reaches itself through nodes, with the declaration of the
/// least such object, unless memory runs out.
pub fn nodes_by_rank(
    alloc: Global,
    nodes: Vec<Node>,
    objects: &[Object],
) -> Result<Vec<Node>, NodesFault>
    requires few { length objects.now ≤ most_parts }
    requires there { AreAmong (length objects.now) (map node_of nodes.items) }
    ensures ordered { IfOk result (λ sorted. ordered_nodes (map object_of objects.now) (map node_of nodes.items) ≡ Ok (map node_of sorted.items)) }
    ensures crowded { result ≡ Err TooManyInputs → ordered_nodes (map object_of objects.now) (map node_of nodes.items) ≡ Err (TooMany Inputs (most_inputs + 1)) }
    ensures looped { (place : Place) → result ≡ Err (Loop place) → ordered_nodes (map object_of objects.now) (map node_of nodes.items) ≡ Err (LoopAt (source_place place)) }
{
    if some_crowded(&nodes) {
        return Err(NodesFault::TooManyInputs);
    }
    match ranks(alloc, &nodes, objects.len() as u32) {
        Ok(node_ranks) => {
            let sorted = sorted_by_rank(alloc, nodes, &node_ranks)?;
            Ok(sorted)
        }
        Err(RankFault::Loop(object)) => Err(NodesFault::Loop(declared_at(objects, object))),
        Err(RankFault::NoMemory) => Err(NodesFault::NoMemory),
    }
}

/// The flat design is that of its nodes in this order, and refused for its nodes exactly where they are.
pub fn order_is_of_design()
    ensures { NodesGiveDesign }
{}
