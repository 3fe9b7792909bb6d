// The elements of a flat design, from the parts of a walk.

ghost use Rattle.std.specs.Prelude.{◌≡◌, ◌≤◌, ◌<◌, IfOk, OnOk, List, length, map, Result};
ghost use Rattle.v_design.specs.Plain as flats;
ghost use Rattle.v_design.specs.WellFormed.{most_parts};
ghost use Rattle.net_graph.specs.Loops.{AreAmong};
ghost use Rattle.v_elab.specs.Drivers.{signals_of, Behaviour as PlainBehaviour, nodes_of, processes_of, two_drivers};
ghost use Rattle.v_elab.specs.Objects as plain;
ghost use Rattle.v_elab.specs.Flat.{flat_of_parts, over_behaviours, over_parts};
ghost use Rattle.elab_parts.specs.PartViews.{parts_of};
ghost use Rattle.elab_parts.specs.BehaviourViews.{node_of, process_in};
ghost use Rattle.elab_wires.specs.WrittenNames.{written_from, written_of};
ghost use Rattle.object_names.specs.OutputViews.{output_lists};
ghost use Rattle.elab_objects.specs.ObjectViews.{held_objects};
ghost use Rattle.node_order.specs.NodeOrder.{ordered_nodes};
ghost use Rattle.elaborate.specs.Elements.{AreMade, AreMadeOver, Orders, Gives, Holds, AreSizedElements, AreSizedParts, HasSizedElements};

use crate::convert::{INPUTS_OVER, PARTS_OVER, driver_fault};
use crate::fault::ElabFault;
use crate::tables::{objects_alone, widths_of};
use driver_checks::{list_driving, one_driver};
use elab_behaviours::{Behaviours, behaviours_of, too_many_behaviours};
use elab_nodes::{Basis, flat_processes, walked_nodes};
use elab_objects::{HeldObject, objects_of_parts};
use elab_parts::{Part, ProcessPart, WalkedNode};
use elab_wires::{Signals, Wiring, Written, list_drives, list_written};
use key_index::Grouped;
use node_order::{NodesFault, nodes_by_rank};
use object_names::{NodeOutput, ObjectNames, names_joined, node_outputs};
use std::alloc::Global;
use v_design::{JoinedName, Node, Object, Process};
use v_elab::What;
use vf_base::{MAX_OBJECTS, NoMemory};

/// The elements of a design: its objects, the names that are joined into them, its nodes by rank and its processes.
#[derive(Drop)]
pub struct Elements {
    pub objects: Vec<Object>,
    pub joined: Vec<JoinedName>,
    pub nodes: Vec<Node>,
    pub processes: Vec<Process>,
}

/// What nodes and processes do, in the order of the walk.
#[derive(Drop)]
pub struct Made {
    pub nodes: Vec<Node>,
    pub processes: Vec<Process>,
}

/// The nodes by rank, or why they make no design.
fn order_nodes(alloc: Global, nodes: Vec<Node>, objects: &[Object]) -> Result<Vec<Node>, ElabFault>
    requires few { length objects.now ≤ most_parts }
    requires there { AreAmong (length objects.now) (map flats.node_of nodes.items) }
    ensures { Orders (ordered_nodes (map flats.object_of objects.now) (map flats.node_of nodes.items)) result }
{
    match nodes_by_rank(alloc, nodes, objects) {
        Ok(sorted) => Ok(sorted),
        Err(NodesFault::TooManyInputs) => Err(ElabFault::TooMany(What::Inputs, INPUTS_OVER)),
        Err(NodesFault::Loop(place)) => Err(ElabFault::Loop(place)),
        Err(NodesFault::NoMemory) => Err(ElabFault::NoMemory),
    }
}

/// The nodes in the order of the walk and the processes, over the names and the widths of some objects.
fn make_behaviours<'n>(
    alloc: Global,
    names: &'n ObjectNames<'n>,
    widths: &'n [u8],
    outputs: &[Vec<NodeOutput>],
    nodes: &[WalkedNode<'_, '_>],
    processes: &[ProcessPart<'_, '_>],
) -> Result<Made, NoMemory>
    requires few { length widths.now ≤ most_parts }
    requires sized { HasSizedElements names.now widths.now (map node_of nodes.now) (map process_in processes.now) }
    ensures { IfOk result (AreMadeOver names.now widths.now (output_lists outputs.now) (map node_of nodes.now) (map process_in processes.now)) }
{
    let basis = Basis { names, widths };
    let nodes = walked_nodes(alloc, basis, outputs, nodes)?;
    let processes = flat_processes(alloc, basis, processes)?;
    Ok(Made { nodes, processes })
}

/// The joined names, the nodes in the order of the walk and the processes over some objects.
fn make_elements<'x>(
    alloc: Global,
    parts: &'x [Part<'_>],
    signals: &'x Signals<'x>,
    nodes: &[WalkedNode<'_, '_>],
    processes: &[ProcessPart<'_, '_>],
    held: &'x [HeldObject],
) -> Result<(Vec<JoinedName>, Made), NoMemory>
    requires signals { signals.now ≡ signals_of (parts_of parts.now) }
    requires few { length held.now ≤ most_parts }
    requires sized { AreSizedElements (parts_of parts.now) (held_objects held.now) (map node_of nodes.now) (map process_in processes.now) }
    ensures { IfOk result (AreMade (parts_of parts.now) (held_objects held.now) (map node_of nodes.now) (map process_in processes.now)) }
{
    let names = ObjectNames::new(alloc, signals, parts, held)?;
    let widths = widths_of(alloc, held)?;
    let outputs = node_outputs(alloc, held, nodes.len())?;
    let made = make_behaviours(alloc, &names, &widths, &outputs, nodes, processes)?;
    let joined = names_joined(alloc, &names, parts)?;
    Ok((joined, made))
}

/// The elements over some objects.
fn over_objects(
    alloc: Global,
    parts: &[Part<'_>],
    signals: &Signals<'_>,
    nodes: &[WalkedNode<'_, '_>],
    processes: &[ProcessPart<'_, '_>],
    held: Vec<HeldObject>,
) -> Result<Elements, ElabFault>
    requires signals { signals.now ≡ signals_of (parts_of parts.now) }
    requires sized { AreSizedElements (parts_of parts.now) (held_objects held.items) (map node_of nodes.now) (map process_in processes.now) }
    ensures { Gives (over_parts (parts_of parts.now) (map node_of nodes.now) (map process_in processes.now) (held_objects held.items)) result }
{
    if held.len() as u64 > MAX_OBJECTS {
        return Err(ElabFault::TooMany(What::Objects, PARTS_OVER));
    }
    let (joined, made) = make_elements(alloc, parts, signals, nodes, processes, &held)?;
    let objects = objects_alone(alloc, held)?;
    match order_nodes(alloc, made.nodes, &objects) {
        Err(fault) => Err(fault),
        Ok(nodes) => Ok(Elements {
            objects,
            joined,
            nodes,
            processes: made.processes,
        }),
    }
}

/// The objects of some parts, where no bit has two drivers.
fn hold_objects(
    alloc: Global,
    parts: &[Part<'_>],
    signals: &Signals<'_>,
    nodes: &[WalkedNode<'_, '_>],
) -> Result<Vec<HeldObject>, ElabFault>
    requires signals { signals.now ≡ signals_of (parts_of parts.now) }
    ensures { Holds (parts_of parts.now) (map node_of nodes.now) result }
{
    let drives = Grouped::new(alloc, list_drives(alloc, signals, nodes)?)?;
    let driving = Grouped::new(alloc, list_driving(alloc, signals, nodes, parts)?)?;
    match one_driver(alloc, &drives, &driving, parts) {
        Err(fault) => Err(driver_fault(fault)),
        Ok(()) => {
            let held = objects_of_parts(alloc, &drives, &driving, parts)?;
            Ok(held)
        }
    }
}

/// The elements of what some parts do, by the names that they write.
fn over_written(
    alloc: Global,
    parts: &[Part<'_>],
    signals: &Signals<'_>,
    written: &[Written],
) -> Result<Elements, ElabFault>
    requires signals { signals.now ≡ signals_of (parts_of parts.now) }
    requires written { map written_of written.now ≡ written_from 0 (parts_of parts.now) }
    requires sized { AreSizedParts (parts_of parts.now) }
    ensures { Gives (flat_of_parts (parts_of parts.now)) result }
{
    let wiring = Wiring::new(alloc, parts, signals, written)?;
    let behaviours = behaviours_of(alloc, &wiring)?;
    let counted = too_many_behaviours(&behaviours);
    let Behaviours { nodes, processes } = behaviours;
    match counted {
        Some(what) => Err(ElabFault::TooMany(what, PARTS_OVER)),
        None => match hold_objects(alloc, parts, signals, &nodes) {
            Err(fault) => Err(fault),
            Ok(held) => over_objects(alloc, parts, signals, &nodes, &processes, held),
        },
    }
}

/// The elements of what some parts do, by their names.
fn over_signals(
    alloc: Global,
    parts: &[Part<'_>],
    signals: &Signals<'_>,
) -> Result<Elements, ElabFault>
    requires signals { signals.now ≡ signals_of (parts_of parts.now) }
    requires sized { AreSizedParts (parts_of parts.now) }
    ensures { Gives (flat_of_parts (parts_of parts.now)) result }
{
    let written = list_written(alloc, parts)?;
    over_written(alloc, parts, signals, &written)
}

/// The elements of the design of some parts whose nodes and processes are sized, or why there is none.
pub fn elements_of(alloc: Global, parts: &[Part<'_>]) -> Result<Elements, ElabFault>
    requires { AreSizedParts (parts_of parts.now) }
    ensures { Gives (flat_of_parts (parts_of parts.now)) result }
{
    let signals = Signals::new(alloc, &*parts)?;
    over_signals(alloc, parts, &signals)
}
