// The ranks of nodes, and the objects that reach themselves.

ghost use Rattle.std.specs.Prelude.{◌≡◌, ℕ, ◌+◌, ◌<◌, ◌≤◌, ◌^◌, true, false, map, length, get_or, IfOk, OnOk, Ok, Err, vec_len};
ghost use Rattle.std.specs.List.{All};
ghost use Rattle.vf_base.specs.Base.{object_number};
ghost use Rattle.v_design.specs.Plain.{node_of};
ghost use Rattle.v_design.specs.PlainDesigns.{design_of};
ghost use Rattle.v_design.specs.WellFormed.{rank_of};
ghost use Rattle.graph_order.specs.Digraphs.{lists_of};
ghost use Rattle.net_graph.specs.declared.rank.RankFault.TheVariants.{Loop};
ghost use Rattle.vf_base.specs.declared.ids.ObjectId.{ObjectId};
ghost use Rattle.net_graph.specs.Loops.{IsLooping, IsLeastLooping, rank_in, AreAmong};
ghost use Rattle.net_graph.specs.WiringLaws.{DriverAdded, DriversListed, IsWiring};
ghost use Rattle.net_graph.specs.RankLaws.{AreRanks};

use graph_order::{depths, empty_lists, least_on_loop, put_in_order};
use std::alloc::Global;
use thiserror::Error;
use v_design::{Design, Node};
use vf_base::{NoMemory, ObjectId};

/// Why nodes have no ranks: an object reaches itself through them, the least such object is told; or want of memory.
#[derive(Clone, Copy, Debug, PartialEq, Eq, Error)]
pub enum RankFault {
    #[error("object {0:?} reaches itself")]
    Loop(ObjectId),
    #[error("out of memory")]
    NoMemory,
}

impl From<NoMemory> for RankFault {
    ghost use Rattle.net_graph.specs.declared.rank.RankFault.TheVariants.{NoMemory};
    ghost use Rattle.std.specs.Prelude.{◌≡◌};

    ghost from_gives = { λ _ fault. fault ≡ NoMemory };

    fn from(_: NoMemory) -> Self {
        RankFault::NoMemory
    }
}

/// Puts a node among those that drive its outputs.
fn add_driver(
    driver: usize,
    outputs: &[ObjectId],
    needs: &mut Vec<Vec<usize>>,
) -> Result<(), NoMemory>
    requires { All (λ output. object_number output < vec_len needs.old) outputs.now }
    ensures { OnOk result (DriverAdded driver (map object_number outputs.now) (lists_of needs.old.items) (lists_of needs.new.items)) }
{
    'outputs: for output in outputs {
        needs[output.0 as usize].push(driver)?;
    }
    Ok(())
}

/// For each object the nodes that drive it, which are numbered after the objects.
fn drivers(alloc: Global, nodes: &[Node], objects: usize) -> Result<Vec<Vec<usize>>, NoMemory>
    requires few { objects < 2 ^ 32 }
    requires there { AreAmong objects (map node_of nodes.now) }
    ensures { IfOk result (λ needs. DriversListed objects (map node_of nodes.now) (lists_of needs.items)) }
{
    let mut needs = empty_lists(alloc, objects)?;
    'nodes: for (number, node) in nodes.iter().enumerate() {
        add_driver(objects + number, node.outputs.as_slice(), &mut needs)?;
    }
    Ok(needs)
}

/// The numbers of some objects.
fn numbers_of(alloc: Global, objects: &[ObjectId]) -> Result<Vec<usize>, NoMemory>
    ensures { IfOk result (λ numbers. numbers.items ≡ map object_number objects.now) }
{
    let mut numbers = Vec::new(alloc);
    'objects: for object in objects {
        numbers.push(object.0 as usize)?;
    }
    Ok(numbers)
}

/// The graph of objects and nodes: an object needs the nodes that drive it, a node its inputs.
fn wiring(alloc: Global, nodes: &[Node], objects: usize) -> Result<Vec<Vec<usize>>, NoMemory>
    requires few { objects < 2 ^ 32 }
    requires there { AreAmong objects (map node_of nodes.now) }
    ensures { IfOk result (λ needs. IsWiring objects (map node_of nodes.now) (lists_of needs.items)) }
{
    let mut needs = drivers(alloc, nodes, objects)?;
    'nodes: for node in nodes {
        let inputs = numbers_of(alloc, node.inputs.as_slice())?;
        needs.push(inputs)?;
    }
    Ok(needs)
}

/// Whether each vertex has a place.
fn all_placed(placed: &[bool]) -> bool
    ensures all { result ≡ true → (vertex : ℕ) → vertex < length placed.now → get_or placed.now vertex false ≡ true }
    ensures some { result ≡ false → (vertex : ℕ) × (vertex < length placed.now) × (get_or placed.now vertex false ≡ false) }
{
    'placed: for has_place in placed {
        if !*has_place {
            return false;
        }
    }
    true
}

/// A depth as a rank. One that 32 bits don't hold needs more nodes than memory holds.
fn as_rank(depth: usize) -> Result<u32, NoMemory>
    ensures { IfOk result (λ rank. rank ≡ depth) }
{
    match u32::try_from(depth) {
        Ok(rank) => Ok(rank),
        Err(_) => Err(NoMemory),
    }
}

/// The ranks of nodes, from the depths of their vertices.
fn ranks_of(
    alloc: Global,
    nodes: &[Node],
    objects: usize,
    depths: &Vec<usize>,
) -> Result<Vec<u32>, NoMemory>
    requires few { objects < 2 ^ 32 }
    requires sized { vec_len depths.now ≡ objects + length nodes.now }
    requires ranks { AreRanks (map node_of nodes.now) (λ number. get_or depths.now.items (objects + number) 0) }
    ensures { IfOk result (λ ranks. ranks.items ≡ map (rank_in (map node_of nodes.now)) (map node_of nodes.now)) }
{
    let mut ranks = Vec::new(alloc);
    'nodes: for number in 0..nodes.len() {
        let rank = as_rank(depths[objects + number])?;
        ranks.push(rank)?;
    }
    Ok(ranks)
}

/// The rank of each node: one more than the greatest rank of a node that drives one of its inputs, and 0 where there is none.
///
/// `objects` is the number of objects, and the nodes may be in any order. `Err(Loop)` tells the least object that reaches itself through
/// nodes, and comes exactly where there is one, unless memory runs out. A rank that 32 bits don't hold is want of memory too: it needs more nodes
/// than memory holds.
pub fn ranks(alloc: Global, nodes: &[Node], objects: u32) -> Result<Vec<u32>, RankFault>
    requires there { AreAmong objects (map node_of nodes.now) }
    ensures ranked { IfOk result (λ ranks. ranks.items ≡ map (rank_in (map node_of nodes.now)) (map node_of nodes.now)) }
    ensures acyclic { IfOk result (λ _. (object : ℕ) → IsLooping (map node_of nodes.now) object → ⊥) }
    ensures looped { (object : ObjectId) → result ≡ Err (Loop object) → IsLeastLooping (map node_of nodes.now) (object_number object) }
{
    let count = objects as usize;
    let needs = wiring(alloc, nodes, count)?;
    let order = put_in_order(alloc, &needs)?;
    if all_placed(&order.placed) {
        let depths = depths(alloc, &needs, &order, count)?;
        let ranks = ranks_of(alloc, nodes, count, &depths)?;
        return Ok(ranks);
    }
    match least_on_loop(alloc, &needs, &order, count)? {
        Some(object) => Err(RankFault::Loop(ObjectId(object as u32))),
        None => unreachable!(),
    }
}

/// The rank of each node of a design.
pub(crate) fn design_ranks(alloc: Global, design: &Design) -> Result<Vec<u32>, NoMemory>
    ensures { IfOk result (λ ranks. ranks.items ≡ map (rank_of (design_of design.now)) (design_of design.now).nodes) }
{
    let objects = design.objects.as_slice().len();
    match ranks(alloc, design.nodes.as_slice(), objects as u32) {
        Ok(node_ranks) => Ok(node_ranks),
        Err(RankFault::NoMemory) => Err(NoMemory),
        Err(RankFault::Loop(_)) => unreachable!(),
    }
}
