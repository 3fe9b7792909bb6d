// The nodes and the processes of the parts of a walk.

ghost use Rattle.std.specs.Prelude.{◌≡◌, ◌+◌, ◌++◌, ◌∷◌, [], IfOk, OnOk, List, map, option_map};
ghost use Rattle.v_design.specs.WellFormed.{most_parts};
ghost use Rattle.v_elab.specs.Refusals.{TooMany};
ghost use Rattle.v_elab.specs.Drivers as plain;
ghost use Rattle.v_elab.specs.Flat.{too_many_behaviours};
ghost use Rattle.elab_parts.specs.PartViews.{process_of, part_of, parts_of};
ghost use Rattle.elab_wires.specs.Wirings.{IsWiring};
ghost use Rattle.elab_behaviours.specs.BehaviourLists.{all_nodes_of, all_processes_of};

use crate::block_drives::block_drives;
use elab_parts::{NodeDrives, NodeFunction, Part, ProcessPart, WalkedNode, WalkedProcess};
use elab_wires::{Wiring, is_block_node};
use std::alloc::Global;
use v_elab::What;
use vf_base::{MAX_OBJECTS, NoMemory, Text};

/// What parts do: the nodes and the processes, each in the order of the walk.
#[derive(Drop)]
pub struct Behaviours<'p, 'u> {
    pub nodes: Vec<WalkedNode<'p, 'u>>,
    pub processes: Vec<ProcessPart<'p, 'u>>,
}

/// Adds a block that by itself is of combinational form, and is the part of a number: a node, or else a process.
fn push_block<'p, 'u>(
    alloc: Global,
    wiring: &Wiring<'_, 'p, 'u>,
    number: usize,
    process: &'p WalkedProcess<'u>,
    targets: &[Text],
    behaviours: &mut Behaviours<'p, 'u>,
) -> Result<(), NoMemory>
    requires { IsWiring wiring.now }
    ensures nodes { OnOk result (all_nodes_of behaviours.new ≡ all_nodes_of behaviours.old ++ plain.nodes_of (plain.process_behaviour
        (parts_of wiring.now.parts.now) number (process_of process.now) (Some targets.now) ∷ [])) }
    ensures processes { OnOk result (all_processes_of behaviours.new ≡ all_processes_of behaviours.old ++ plain.processes_of (plain.process_behaviour
        (parts_of wiring.now.parts.now) number (process_of process.now) (Some targets.now) ∷ [])) }
{
    let is_node = is_block_node(alloc, wiring, number, process, targets)?;
    if is_node {
        let drives = block_drives(alloc, wiring.signals, process, targets)?;
        behaviours.nodes.push(WalkedNode {
            name: None,
            drives: NodeDrives::Targets(drives),
            function: NodeFunction::Block(process),
        })?;
        return Ok(());
    }
    behaviours.processes.push(ProcessPart { process })?;
    Ok(())
}

/// Adds what an `initial` or `always` does that is the part of a number.
fn push_process<'p, 'u>(
    alloc: Global,
    wiring: &Wiring<'_, 'p, 'u>,
    number: usize,
    process: &'p WalkedProcess<'u>,
    behaviours: &mut Behaviours<'p, 'u>,
) -> Result<(), NoMemory>
    requires { IsWiring wiring.now }
    ensures nodes { OnOk result (all_nodes_of behaviours.new ≡ all_nodes_of behaviours.old ++ plain.nodes_of (plain.process_behaviour
        (parts_of wiring.now.parts.now) number (process_of process.now) process.now.targets ∷ [])) }
    ensures processes { OnOk result (all_processes_of behaviours.new ≡ all_processes_of behaviours.old ++ plain.processes_of (plain.process_behaviour
        (parts_of wiring.now.parts.now) number (process_of process.now) process.now.targets ∷ [])) }
{
    match &process.targets {
        None => {
            behaviours.processes.push(ProcessPart { process })?;
            Ok(())
        }
        Some(targets) => {
            push_block(
                alloc,
                wiring,
                number,
                process,
                targets.as_slice(),
                behaviours,
            )?;
            Ok(())
        }
    }
}

/// Adds what the part of a number does.
fn push_part<'p, 'u>(
    alloc: Global,
    wiring: &Wiring<'_, 'p, 'u>,
    number: usize,
    part: &'p Part<'u>,
    behaviours: &mut Behaviours<'p, 'u>,
) -> Result<(), NoMemory>
    requires { IsWiring wiring.now }
    ensures nodes { OnOk result (all_nodes_of behaviours.new ≡ all_nodes_of behaviours.old ++ plain.nodes_of (plain.part_behaviour (parts_of wiring.now.parts.now) number (part_of part.now))) }
    ensures processes { OnOk result (all_processes_of behaviours.new ≡ all_processes_of behaviours.old ++ plain.processes_of (plain.part_behaviour
        (parts_of wiring.now.parts.now) number (part_of part.now))) }
{
    match part {
        Part::Assign { drives, value } => {
            behaviours.nodes.push(WalkedNode {
                name: None,
                drives: NodeDrives::Listed(drives.as_slice()),
                function: NodeFunction::Assign(value),
            })?;
            Ok(())
        }
        Part::Gate {
            name,
            kind,
            drives,
            path,
            terminals,
        } => {
            behaviours.nodes.push(WalkedNode {
                name: Some(name),
                drives: NodeDrives::Listed(drives.as_slice()),
                function: NodeFunction::Gate {
                    kind: *kind,
                    path,
                    terminals,
                },
            })?;
            Ok(())
        }
        Part::Process(process) => {
            push_process(alloc, wiring, number, process, behaviours)?;
            Ok(())
        }
        Part::Signal(_) | Part::Memory(_) | Part::Instance => Ok(()),
    }
}

/// What some parts do, by the tables of their names.
pub fn behaviours_of<'p, 'u>(
    alloc: Global,
    wiring: &Wiring<'_, 'p, 'u>,
) -> Result<Behaviours<'p, 'u>, NoMemory>
    requires { IsWiring wiring.now }
    ensures nodes { IfOk result (λ b. all_nodes_of b ≡ plain.nodes_of (plain.behaviours_of (parts_of wiring.now.parts.now))) }
    ensures processes { IfOk result (λ b. all_processes_of b ≡ plain.processes_of (plain.behaviours_of (parts_of wiring.now.parts.now))) }
{
    let mut behaviours = Behaviours {
        nodes: Vec::new(alloc),
        processes: Vec::new(alloc),
    };
    'parts: for (number, part) in wiring.parts.iter().enumerate() {
        push_part(alloc, wiring, number, part, &mut behaviours)?;
    }
    Ok(behaviours)
}

/// What there are too many of: nodes, or else processes.
pub fn too_many_behaviours(behaviours: &Behaviours<'_, '_>) -> Option<What>
    ensures { (all : List plain.Behaviour) → plain.nodes_of all ≡ all_nodes_of behaviours.now → plain.processes_of all ≡ all_processes_of behaviours.now →
        too_many_behaviours all ≡ option_map (λ what. TooMany what (most_parts + 1)) result }
{
    if behaviours.nodes.len() as u64 > MAX_OBJECTS {
        return Some(What::Nodes);
    }
    if behaviours.processes.len() as u64 > MAX_OBJECTS {
        return Some(What::Processes);
    }
    None
}
