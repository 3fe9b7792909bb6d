// The function of a node, over any values.

ghost use Rattle.std.specs.Prelude.{◌≡◌, ℕ, ◌<◌, ◌≤◌, [], ◌∷◌, map, length, take, get_or, Some, slice_get, IfOk, vec_len};
ghost use Rattle.std.specs.List.{All};
ghost use Rattle.vf_base.specs.Base.{object_number, node_number};
ghost use Rattle.four_value.specs.Values.{IsWidth};
ghost use Rattle.vf_base.specs.Lists.{zip_with};
ghost use Rattle.v_design.specs.Designs.{FlatNode, AssignNode, GateNode, BlockNode, forced_output, width_in};
ghost use Rattle.v_design.specs.Assignments.{node_value, node_outputs};
ghost use Rattle.v_design.specs.Plain.{expression_of, expressions_of, statement_of};
ghost use Rattle.v_design.specs.PlainDesigns.{design_of};
ghost use Rattle.v_design.specs.Views.{machine_of};
ghost use Rattle.node_eval.specs.ValuesOf.{AreValuesOf};
ghost use Rattle.node_eval.specs.Overlaid.{StandOnce};
ghost use Rattle.node_eval.specs.Running.{MayRun};
ghost use Rattle.node_eval.specs.Rooms.{room_size};
ghost use Rattle.net_settle.specs.Rooms.{values_put, IsMadeFor, IsAsLarge};
ghost use Rattle.net_settle.specs.NodeLaws.{MayAssign, MayGate};

use crate::work::NodeWork;
use expr_eval::{Stack, eval};
use four_value::{Bit, GateKind, Vec4};
use node_eval::{BlockRoom, force_outputs, gate_output, place_parts, run_block};
use std::alloc::Global;
use v_design::{Design, FlatExpr, FlatStmt, Node, NodeKind, Values, View};
use vf_base::{NoMemory, NodeId, ObjectId};

/// The most outputs that one of some nodes has.
fn most_outputs(nodes: &[Node]) -> usize
    ensures { All (λ node. length node.outputs ≤ result) nodes.now }
{
    let mut most = 0;
    'nodes: for node in nodes {
        most = most.max(node.outputs.as_slice().len());
    }
    most
}

impl NodeWork {
    /// Room for evaluating the nodes of a design.
    ///
    /// # Errors
    ///
    /// Want of memory.
    pub fn new(alloc: Global, design: &Design) -> Result<NodeWork, NoMemory>
        ensures made { IfOk result (λ work. IsMadeFor (design_of design.now) work) }
        ensures empty { IfOk result (λ work. values_put work ≡ []) }
    {
        let most = most_outputs(design.nodes.as_slice());
        let results = vec![in alloc; Vec4::of_bit(Bit::X); most]?;
        let block = BlockRoom::new(alloc, design.objects.as_slice().len())?;
        let stack = Stack::new(alloc, 256)?;
        Ok(NodeWork {
            results,
            count: 0,
            block,
            stack,
        })
    }

    /// What was put there last: a value for each output of the node, in their order.
    pub fn outputs(&self) -> &[Vec4]
        ensures { result.now ≡ values_put self.now }
    {
        &self.results[..self.count]
    }
}

/// Puts what a continuous assignment gives its outputs.
fn put_assignment<V: Values>(
    view: &View,
    node: NodeId,
    value: &FlatExpr,
    places: &[u32],
    outputs: &[ObjectId],
    values: &V,
    work: &mut NodeWork,
)
    requires there { All (λ output. object_number output < length (design_of view.now.design.now).objects) outputs.now }
    requires widths { (object : ℕ) → object < length (design_of view.now.design.now).objects → IsWidth (width_in (design_of view.now.design.now) object) }
    requires may { MayAssign (V.values values.now) (expression_of value.now) places.now (length outputs.now) }
    requires room { length outputs.now ≤ vec_len work.old.results }
    ensures put { values_put work.new
        ≡ zip_with (forced_output (machine_of view.now).fault (node_number node)) (map object_number outputs.now)
        (node_value (machine_of view.now) (node_number node) (AssignNode (expression_of value.now) places.now) (map object_number outputs.now) (V.values values.now)) }
    ensures large { IsAsLarge work.new work.old }
{
    let bits = eval(value, values, &mut work.stack);
    place_parts(view, node, outputs, places, bits, &mut work.results);
    work.count = outputs.len();
}

/// Puts the one bit that a gate gives its output, and nothing where the gate has none.
fn put_bit(view: &View, node: NodeId, outputs: &[ObjectId], bit: Bit, work: &mut NodeWork)
    requires room { length outputs.now ≤ vec_len work.old.results }
    ensures put { values_put work.new ≡ zip_with (forced_output (machine_of view.now).fault (node_number node)) (map object_number outputs.now) ((bit ∷ []) ∷ []) }
    ensures large { IsAsLarge work.new work.old }
{
    if outputs.is_empty() {
        work.count = 0;
    } else {
        work.results[0] = view.forced_output(node, outputs[0], Vec4::of_bit(bit));
        work.count = 1;
    }
}

/// Puts what a gate gives its output.
fn put_gate<V: Values>(
    view: &View,
    node: NodeId,
    kind: GateKind,
    terminals: &[FlatExpr],
    outputs: &[ObjectId],
    values: &V,
    work: &mut NodeWork,
)
    requires may { MayGate (V.values values.now) (expressions_of terminals.now) }
    requires room { length outputs.now ≤ vec_len work.old.results }
    ensures put { values_put work.new
        ≡ zip_with (forced_output (machine_of view.now).fault (node_number node)) (map object_number outputs.now)
        (node_value (machine_of view.now) (node_number node) (GateNode kind (expressions_of terminals.now)) (map object_number outputs.now) (V.values values.now)) }
    ensures large { IsAsLarge work.new work.old }
{
    let bit = gate_output(view, node, kind, terminals, values, &mut work.stack);
    put_bit(view, node, outputs, bit, work);
}

/// Puts what a combinational block leaves in its outputs.
fn put_block<V: Values>(
    view: &View,
    node: NodeId,
    statement: &FlatStmt,
    outputs: &[ObjectId],
    values: &V,
    work: &mut NodeWork,
)
    requires may { MayRun (V.values values.now) outputs.now (statement_of statement.now) }
    requires once { StandOnce (map object_number outputs.now) }
    requires there { (k : ℕ) → k < length outputs.now → get_or (map object_number outputs.now) k 0 < length (V.values values.now) }
    requires objects { room_size work.old.block ≡ length (V.values values.now) }
    requires room { length outputs.now ≤ vec_len work.old.results }
    ensures put { values_put work.new
        ≡ zip_with (forced_output (machine_of view.now).fault (node_number node)) (map object_number outputs.now)
        (node_value (machine_of view.now) (node_number node) (BlockNode (statement_of statement.now)) (map object_number outputs.now) (V.values values.now)) }
    ensures large { IsAsLarge work.new work.old }
{
    run_block(
        statement,
        outputs,
        values,
        &mut work.results,
        &mut work.block,
    );
    force_outputs(view, node, outputs, &mut work.results);
    work.count = outputs.len();
}

/// Puts the function of a node of the view's design, over some values and under the view's fault, into the room. It takes no memory.
pub fn evaluate<V: Values>(view: &View, node: NodeId, values: &V, room: &mut NodeWork)
    requires node { node_number node < length (design_of view.now.design.now).nodes }
    requires values { AreValuesOf (design_of view.now.design.now) (V.values values.now) }
    requires made { IsMadeFor (design_of view.now.design.now) room.old }
    ensures made { IsMadeFor (design_of view.now.design.now) room.new }
    ensures outputs { (flat : FlatNode) → slice_get (design_of view.now.design.now).nodes (node_number node) ≡ Some flat →
        values_put room.new ≡ node_outputs (machine_of view.now) (node_number node) flat (V.values values.now) }
{
    let own = &view.design.nodes.as_slice()[node.0 as usize];
    let outputs = own.outputs.as_slice();
    match &own.kind {
        NodeKind::Assign(value, places) => put_assignment(
            view,
            node,
            value,
            places.as_slice(),
            outputs,
            values,
            room,
        ),
        NodeKind::Gate(kind, terminals) => {
            put_gate(view, node, *kind, terminals, outputs, values, room)
        }
        NodeKind::Block(statement) => put_block(view, node, statement, outputs, values, room),
    }
}
