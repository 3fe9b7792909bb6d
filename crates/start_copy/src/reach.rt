// The nodes that a fault reaches, in their order.

ghost use Rattle.std.specs.Prelude.{◌≡◌, ◌<◌, [], length, OnOk, Contains, Some, slice_get};
ghost use Rattle.vf_base.specs.Base.{node_number};
ghost use Rattle.v_design.specs.Designs.{FlatNode, good_machine};
ghost use Rattle.v_design.specs.Laws.{worked_on};
ghost use Rattle.v_design.specs.Plain.{fault_of};
ghost use Rattle.v_design.specs.PlainDesigns.{design_of};
ghost use Rattle.v_design.specs.Sites.{sites_of};
ghost use Rattle.v_design.specs.States.{start};
ghost use Rattle.v_design.specs.Views.{machine_of};
ghost use Rattle.copy_overlay.specs.Faulty.{faulty_values};
ghost use Rattle.node_eval.specs.ValuesOf.{AreValuesOf};
ghost use Rattle.net_settle.specs.Marked.{NoneMarked};
ghost use Rattle.net_settle.specs.Rooms.{IsMadeFor};
ghost use Rattle.start_copy.specs.Reached.{ComesToHold, StartsSo};
ghost use Rattle.start_copy.specs.Rooms.{IsRoomFor, design_in};
ghost use Rattle.start_copy.specs.Start.{KeepsStart};

use crate::held::{OverGood, hold, hold_all};
use crate::room::StartRoom;
use copy_state::FaultCopy;
use four_value::Vec4;
use net_settle::{NodeWork, Settle, evaluate};
use v_design::{Fault, Site, View};
use vf_base::{NoMemory, NodeId};

/// A node is evaluated, and its nets come to hold what it gives.
fn work_on(
    view: &View,
    good: &[Vec4],
    settle: &mut Settle,
    work: &mut NodeWork,
    copy: &mut FaultCopy,
    node: NodeId,
) -> Result<(), NoMemory>
    requires belongs { settle.old.graph.now.design.now ≡ view.now.design.now }
    requires node { node_number node < length (design_of view.now.design.now).nodes }
    requires made { IsMadeFor (design_of view.now.design.now) work.old }
    requires are { AreValuesOf (design_of view.now.design.now) (faulty_values good.now copy.old.values) }
    requires good { AreValuesOf (design_of view.now.design.now) good.now }
    ensures belongs { settle.new.graph.now ≡ settle.old.graph.now }
    ensures made { IsMadeFor (design_of view.now.design.now) work.new }
    ensures holds { OnOk result ((flat : FlatNode) → slice_get (design_of view.now.design.now).nodes (node_number node) ≡ Some flat →
        ComesToHold (design_of view.now.design.now) good.now flat.outputs
        (worked_on (machine_of view.now) (node_number node) flat (faulty_values good.now copy.old.values))
        copy.old copy.new settle.old.marks.items settle.new.marks.items) }
{
    evaluate(view, node, &OverGood { good, copy }, work);
    let own = &view.design.nodes.as_slice()[node.0 as usize];
    let outputs = own.outputs.as_slice();
    hold_all(good, settle, copy, outputs, work.outputs())?;
    Ok(())
}

/// What the fault holds itself: its variable, or its node.
fn hold_site(
    view: &View,
    fault: Fault,
    good: &[Vec4],
    settle: &mut Settle,
    work: &mut NodeWork,
    copy: &mut FaultCopy,
) -> Result<(), NoMemory>
    requires belongs { settle.old.graph.now.design.now ≡ view.now.design.now }
    requires fault { view.now.fault ≡ Some fault }
    requires site { Contains (sites_of (design_of view.now.design.now)) (fault_of fault).site }
    requires made { IsMadeFor (design_of view.now.design.now) work.old }
    requires none { NoneMarked settle.old.marks.items }
    requires good { good.now ≡ (start (good_machine (design_of view.now.design.now))).values }
    requires empty { copy.old.values ≡ [] }
    ensures belongs { settle.new.graph.now ≡ settle.old.graph.now }
    ensures made { IsMadeFor (design_of view.now.design.now) work.new }
    ensures starts { OnOk result (StartsSo (design_of view.now.design.now) (fault_of fault) good.now copy.old copy.new settle.new.marks.items) }
{
    order_laws::nets();
    order_laws::nodes_rest();
    copy_laws::free_events();
    match fault.site {
        Site::Var(object, _) => {
            let own = view.forced(object, good[object.0 as usize]);
            hold(good, settle, copy, object, own)?;
            Ok(())
        }
        Site::Out(node, _, _) => {
            work_on(view, good, settle, work, copy, node)?;
            Ok(())
        }
        Site::Terminal(node, _) => {
            work_on(view, good, settle, work, copy, node)?;
            Ok(())
        }
    }
}

/// The copy of a fault of the room's design, which keeps no values, comes to keep what the faulty machine has otherwise than the good one at the start, whose values are given. Only nodes are
/// evaluated that the fault reaches.
///
/// # Errors
///
/// Want of memory. Room and copy aren't to be used again then.
pub fn start_copy(
    fault: Fault,
    good: &[Vec4],
    room: &mut StartRoom,
    copy: &mut FaultCopy,
) -> Result<(), NoMemory>
    requires site { Contains (sites_of (design_in room.old)) (fault_of fault).site }
    requires good { good.now ≡ (start (good_machine (design_in room.old))).values }
    requires room { IsRoomFor (design_in room.old) room.old }
    requires empty { copy.old.values ≡ [] }
    ensures keeps { OnOk result (KeepsStart (design_in room.old) (fault_of fault) copy.old copy.new) }
    ensures room { OnOk result (IsRoomFor (design_in room.old) room.new) }
{
    order_laws::nets();
    let design = room.settle.graph.design;
    let view = View {
        design,
        fault: Some(fault),
    };
    hold_site(&view, fault, good, &mut room.settle, &mut room.work, copy)?;
    'nodes: while let Some(node) = room.settle.work() {
        work_on(&view, good, &mut room.settle, &mut room.work, copy, node)?;
    }
    copy.ascending();
    Ok(())
}
