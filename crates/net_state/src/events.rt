// What the events of a machine do to its values and its nodes.

ghost use Rattle.std.specs.Prelude.{◌≡◌, ◌<◌, length, map, Some, slice_get, slice_set, IfOk, IfSome};
ghost use Rattle.std.specs.Option.{option_map};
ghost use Rattle.std.specs.List.{All};
ghost use Rattle.vf_base.specs.Base.{object_number, node_number};
ghost use Rattle.vf_base.specs.Lists.{AllHold};
ghost use Rattle.v_design.specs.Designs.{FlatNode, width_in};
ghost use Rattle.v_design.specs.Assignments.{value_at, first_contents};
ghost use Rattle.v_design.specs.States.{State, Evaluation, NetUpdate, start, written, value_written, after, idle_node};
ghost use Rattle.v_design.specs.Runs.{work_of, named_event};
ghost use Rattle.v_design.specs.Plain.{update_of, fault_of};
ghost use Rattle.v_design.specs.PlainDesigns.{design_of};
ghost use Rattle.v_design.specs.Views.{machine_of};
ghost use Rattle.value_change.specs.declared.change.Change.{Change};
ghost use Rattle.value_change.specs.Changes.{change_seen};
ghost use Rattle.value_change.specs.ChangeLaws.{net_changes};
ghost use Rattle.net_state.specs.States.{machine_in, values_in, nodes_in, AreNetsOf};

use crate::objects::Objects;
use crate::state::NetState;
use four_value::Vec4;
use net_graph::Graph;
use net_settle::{NodeWork, Settle, evaluate};
use std::alloc::Global;
use v_design::{Fault, Update, Values, View};
use value_change::Change;
use vf_base::{NoMemory, NodeId, ObjectId};

/// The first contents of the objects, forced by the view's fault.
fn first_contents(alloc: Global, view: &View) -> Result<Vec<Vec4>, NoMemory>
    ensures { IfOk result (λ values. values.items ≡ first_contents (machine_of view.now)) }
{
    let mut values = Vec::new(alloc);
    'objects: for (number, object) in view.design.objects.as_slice().iter().enumerate() {
        values.push(view.forced(ObjectId(number as u32), object.first))?;
    }
    Ok(values)
}

impl<'d> NetState<'d> {
    /// The values and the nodes that a machine begins with: variables have their first contents, nets are settled, and no node is marked.
    ///
    /// # Errors
    ///
    /// Want of memory.
    pub fn new(
        alloc: Global,
        view: View<'d>,
        graph: &'d Graph<'d>,
    ) -> Result<NetState<'d>, NoMemory>
        requires { graph.now.design.now ≡ view.design.now }
        ensures machine { IfOk result (λ nets. machine_in nets ≡ machine_of view.entry) }
        ensures begins { IfOk result (λ nets. AreNetsOf nets (start (machine_of view.entry))) }
    {
        let values = first_contents(alloc, &view)?;
        let settle = Settle::settled(alloc, graph)?;
        let mut room = NodeWork::new(alloc, view.design)?;
        let mut objects = Objects { values, settle };
        objects.settle_all(view.fault, &mut room);
        Ok(NetState {
            fault: view.fault,
            objects,
            room,
        })
    }

    /// How many objects there are: those of the design.
    pub fn object_count(&self) -> usize
        ensures count { result ≡ length (values_in self.now) }
        ensures all { length (values_in self.now) ≡ length (machine_in self.now).design.objects }
    {
        self.objects.values.len()
    }

    /// The least node that is to be evaluated; none where no node is.
    pub fn least_node(&mut self) -> Option<NodeId>
        ensures machine { machine_in self.new ≡ machine_in self.old }
        ensures values { values_in self.new ≡ values_in self.old }
        ensures nodes { nodes_in self.new ≡ nodes_in self.old }
        ensures least { work_of 0 (nodes_in self.old) ≡ named_event Evaluation (option_map node_number result) }
        ensures there { IfSome result (λ node. node_number node < length (nodes_in self.old)) }
    {
        self.objects.least_marked()
    }

    /// The design, good or under the fault.
    fn view(&self) -> View<'d>
        ensures machine { machine_of result ≡ machine_in self.now }
        ensures design { result.design.now ≡ self.now.objects.settle.graph.now.design.now }
    {
        View {
            design: self.objects.settle.graph.design,
            fault: self.fault,
        }
    }

    /// An update is written to its object, forced by the fault. It answers what the object held before, and what it holds.
    pub fn write(&mut self, update: &Update) -> Change
        requires { object_number update.now.object < length (values_in self.old) }
        ensures machine { machine_in self.new ≡ machine_in self.old }
        ensures written { (state : State) → AreNetsOf self.old state → AreNetsOf self.new (written (machine_in self.old) (update_of update.now) state) }
        ensures object { result.object ≡ update.now.object }
        ensures old { (state : State) → AreNetsOf self.old state → result.old ≡ value_at state.values (object_number update.now.object) }
        ensures width { length result.old ≡ length result.new }
        ensures new { (state : State) → AreNetsOf self.old state → result.new ≡ value_written (machine_in self.old) state (update_of update.now) }
    {
        let object = update.object;
        let old = self.objects.value(object);
        let new = self
            .view()
            .forced(object, old.place(update.low, update.value));
        self.objects.put(object, new)
    }

    /// An object holds a value. Nothing sees that as a change, so no node is marked.
    pub fn put(&mut self, object: ObjectId, value: Vec4)
        requires there { object_number object < length (values_in self.old) }
        requires width { length value ≡ width_in (machine_in self.old).design (object_number object) }
        ensures machine { machine_in self.new ≡ machine_in self.old }
        ensures values { values_in self.new ≡ slice_set (values_in self.old) (object_number object) value }
        ensures nodes { nodes_in self.new ≡ nodes_in self.old }
    {
        self.objects.hold_one(object, value);
    }

    /// The design is good or under another fault from now on. No value is forced by that.
    pub fn set_fault(&mut self, fault: Option<Fault>)
        ensures machine { machine_in self.new ≡ record (machine_in self.old) { fault = option_map fault_of fault } }
        ensures values { values_in self.new ≡ values_in self.old }
        ensures nodes { nodes_in self.new ≡ nodes_in self.old }
    {
        self.fault = fault;
    }

    /// No node is to be evaluated any more.
    pub fn unmark_all(&mut self)
        ensures machine { machine_in self.new ≡ machine_in self.old }
        ensures values { values_in self.new ≡ values_in self.old }
        ensures nodes { nodes_in self.new ≡ map (λ (node : FlatNode). idle_node) (machine_in self.old).design.nodes }
    {
        self.objects.unmark_all();
    }

    /// A node is evaluated, and its nets get the values. `changes` holds afterwards what that changed, in the order of the objects.
    ///
    /// # Errors
    ///
    /// Want of memory.
    pub fn work(&mut self, node: NodeId, changes: &mut Vec<Change>) -> Result<(), NoMemory>
        requires { node_number node < length (nodes_in self.old) }
        ensures machine { IfOk result (λ _. machine_in self.new ≡ machine_in self.old) }
        ensures after { IfOk result (λ _. (state : State) → AreNetsOf self.old state →
            AreNetsOf self.new (after (machine_in self.old) (after (machine_in self.old) state (Evaluation (node_number node))) (NetUpdate (node_number node)))) }
        ensures changes { IfOk result (λ _. (flat : FlatNode) → slice_get (machine_in self.old).design.nodes (node_number node) ≡ Some flat →
            map change_seen changes.new.items ≡ net_changes (machine_in self.old).design flat.outputs (values_in self.old) (values_in self.new)) }
        ensures objects { IfOk result (λ _. AllHold (λ (change : Change). object_number change.object < length (machine_in self.old).design.objects) changes.new.items) }
        ensures widths { IfOk result (λ _. All (λ (change : Change). length change.old ≡ length change.new) changes.new.items) }
    {
        changes.clear();
        let view = self.view();
        let own = &view.design.nodes.as_slice()[node.0 as usize];
        self.objects.unmark(node);
        evaluate(&view, node, &self.objects, &mut self.room);
        let outputs = own.outputs.as_slice();
        self.objects.put_all(outputs, self.room.outputs(), changes)?;
        Ok(())
    }
}
