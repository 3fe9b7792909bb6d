// An object gets a value, or a node's nets do.

ghost use Rattle.std.specs.Prelude.{◌≡◌, ◌<◌, false, length, map, IfOk, [], slice_set, MatchOption};
ghost use Rattle.std.specs.List.{All};
ghost use Rattle.vf_base.specs.Base.{object_number, node_number};
ghost use Rattle.vf_base.specs.Lists.{AllHold};
ghost use Rattle.v_design.specs.Designs.{Machine, width_in};
ghost use Rattle.v_design.specs.Assignments.{value_at, with_outputs, settled_from};
ghost use Rattle.v_design.specs.States.{State, with_value, with_values};
ghost use Rattle.v_design.specs.PlainDesigns.{design_of};
ghost use Rattle.v_design.specs.Views.{machine_with};
ghost use Rattle.net_settle.specs.Marked.{NoneMarked, IsLeastMarked};
ghost use Rattle.net_settle.specs.Rooms.{IsMadeFor};
ghost use Rattle.value_change.specs.declared.change.Change.{Change};
ghost use Rattle.value_change.specs.Changes.{change_seen};
ghost use Rattle.value_change.specs.ChangeLaws.{AreDistinct, net_changes};
ghost use Rattle.net_state.specs.Held.{marks_with, Holds, AreNets, HaveWidths};

use crate::objects::Objects;
use crate::tell::tell;
use four_value::Vec4;
use net_settle::{NodeWork, Settle, evaluate};
use v_design::{Fault, View};
use value_change::Change;
use vf_base::{NoMemory, NodeId, ObjectId};

/// Marks the nodes that read an object, where it has changed.
fn mark_if(settle: &mut Settle, object: ObjectId, changed: bool)
    requires { object_number object < length (design_of settle.old.graph.now.design.now).objects }
    ensures belongs { settle.new.graph.now ≡ settle.old.graph.now }
    ensures marks { settle.new.marks.items ≡ marks_with (design_of settle.old.graph.now.design.now) (object_number object) changed settle.old.marks.items }
{
    if changed {
        settle.change(object);
    }
}

impl<'d> Objects<'d> {
    /// The least node that is to be evaluated; none where no node is.
    pub(crate) fn least_marked(&mut self) -> Option<NodeId>
        ensures belongs { self.new.settle.graph.now ≡ self.old.settle.graph.now }
        ensures values { self.new.values.items ≡ self.old.values.items }
        ensures marks { self.new.settle.marks.items ≡ self.old.settle.marks.items }
        ensures least { MatchOption result (NoneMarked self.old.settle.marks.items) (λ node. IsLeastMarked (node_number node) self.old.settle.marks.items) }
    {
        self.settle.least_marked()
    }

    /// A node is no longer to be evaluated.
    pub(crate) fn unmark(&mut self, node: NodeId)
        requires { node_number node < length (design_of self.old.settle.graph.now.design.now).nodes }
        ensures belongs { self.new.settle.graph.now ≡ self.old.settle.graph.now }
        ensures values { self.new.values.items ≡ self.old.values.items }
        ensures marks { self.new.settle.marks.items ≡ slice_set self.old.settle.marks.items (node_number node) false }
    {
        self.settle.unmark(node);
    }

    /// An object gets a value, and the nodes that read it are marked where that changes it. It answers what the object held and what it holds.
    pub(crate) fn put(&mut self, object: ObjectId, new: Vec4) -> Change
        requires there { object_number object < length self.old.values.items }
        requires width { length new ≡ width_in (design_of self.old.settle.graph.now.design.now) (object_number object) }
        ensures belongs { self.new.settle.graph.now ≡ self.old.settle.graph.now }
        ensures object { result.object ≡ object }
        ensures old { result.old ≡ value_at self.old.values.items (object_number object) }
        ensures new { result.new ≡ new }
        ensures values { self.new.values.items ≡ slice_set self.old.values.items (object_number object) new }
        ensures holds { (machine : Machine) (state : State) → machine.design ≡ design_of self.old.settle.graph.now.design.now → Holds self.old state →
            Holds self.new (with_value machine (object_number object) new state) }
    {
        let at = object.0 as usize;
        let old = self.values[at];
        self.values[at] = new;
        mark_if(&mut self.settle, object, !old.same(new));
        Change { object, old, new }
    }

    /// A node's nets get values, one after the other, and what that changed is told in the order of the objects.
    ///
    /// # Errors
    ///
    /// Want of memory.
    pub(crate) fn put_all(
        &mut self,
        outputs: &[ObjectId],
        values: &[Vec4],
        changes: &mut Vec<Change>,
    ) -> Result<(), NoMemory>
        requires nets { AreNets (design_of self.old.settle.graph.now.design.now) (map object_number outputs.now) }
        requires distinct { AreDistinct (map object_number outputs.now) }
        requires widths { HaveWidths (design_of self.old.settle.graph.now.design.now) (map object_number outputs.now) values.now }
        requires empty { changes.old.items ≡ [] }
        ensures belongs { self.new.settle.graph.now ≡ self.old.settle.graph.now }
        ensures changes { IfOk result (λ _. map change_seen changes.new.items ≡ net_changes (design_of self.old.settle.graph.now.design.now)
            (map object_number outputs.now) self.old.values.items self.new.values.items) }
        ensures objects { IfOk result (λ _. AllHold (λ (change : Change). object_number change.object < length (design_of self.old.settle.graph.now.design.now).objects) changes.new.items) }
        ensures widths { IfOk result (λ _. All (λ (change : Change). length change.old ≡ length change.new) changes.new.items) }
        ensures holds { IfOk result (λ _. (machine : Machine) (state : State) → machine.design ≡ design_of self.old.settle.graph.now.design.now →
            Holds self.old state → Holds self.new (with_values machine (map object_number outputs.now) values.now state)) }
    {
        'outputs: for at in 0..outputs.len() {
            let change = self.put(outputs[at], values[at]);
            tell(change, changes)?;
        }
        Ok(())
    }

    /// A node's nets hold values from the start; nothing changes by that, and no node is marked.
    pub(crate) fn hold(&mut self, outputs: &[ObjectId], values: &[Vec4])
        requires nets { AreNets (design_of self.old.settle.graph.now.design.now) (map object_number outputs.now) }
        requires widths { HaveWidths (design_of self.old.settle.graph.now.design.now) (map object_number outputs.now) values.now }
        ensures settle { self.new.settle ≡ self.old.settle }
        ensures values { self.new.values.items ≡ with_outputs (map object_number outputs.now) values.now self.old.values.items }
    {
        'outputs: for at in 0..outputs.len() {
            self.values[outputs[at].0 as usize] = values[at];
        }
    }

    /// An object holds a value; no node is marked by that.
    pub(crate) fn hold_one(&mut self, object: ObjectId, value: Vec4)
        requires there { object_number object < length self.old.values.items }
        requires width { length value ≡ width_in (design_of self.old.settle.graph.now.design.now) (object_number object) }
        ensures settle { self.new.settle ≡ self.old.settle }
        ensures values { self.new.values.items ≡ slice_set self.old.values.items (object_number object) value }
    {
        self.values[object.0 as usize] = value;
    }

    /// No node is to be evaluated any more.
    pub(crate) fn unmark_all(&mut self)
        ensures belongs { self.new.settle.graph.now ≡ self.old.settle.graph.now }
        ensures values { self.new.values.items ≡ self.old.values.items }
        ensures marks { NoneMarked self.new.settle.marks.items }
    {
        let count = self.settle.graph.design.nodes.as_slice().len();
        'nodes: for number in 0..count {
            self.unmark(NodeId(number as u32));
        }
    }

    /// The nets get the values that their nodes give them, in the nodes' order; no node is marked by that.
    pub(crate) fn settle_all(&mut self, fault: Option<Fault>, room: &mut NodeWork)
        requires { IsMadeFor (design_of self.old.settle.graph.now.design.now) room.old }
        ensures settle { self.new.settle ≡ self.old.settle }
        ensures made { IsMadeFor (design_of self.old.settle.graph.now.design.now) room.new }
        ensures values { self.new.values.items ≡ settled_from (machine_with self.old.settle.graph.now.design.now fault) 0 (design_of self.old.settle.graph.now.design.now).nodes self.old.values.items }
    {
        let design = self.settle.graph.design;
        let view = View { design, fault };
        'nodes: for (number, node) in design.nodes.as_slice().iter().enumerate() {
            evaluate(&view, NodeId(number as u32), self, room);
            self.hold(node.outputs.as_slice(), room.outputs());
        }
    }
}
