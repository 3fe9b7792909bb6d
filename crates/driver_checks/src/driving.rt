// The variables that drive, under the objects that they are of.

ghost use Rattle.std.specs.Prelude.{◌≡◌, ◌&&◌, ◌++◌, ◌∷◌, [], IfOk, OnOk, not, map, flat_map};
ghost use Rattle.key_index.specs.Places.{keys_of};
ghost use Rattle.key_index.specs.Groups.{keyed_of};
ghost use Rattle.v_tree.specs.Trees.{has_name};
ghost use Rattle.v_elab.specs.Drivers.{signals_of, drive_signals, block_signals};
ghost use Rattle.elab_parts.specs.PartViews.{drive_of, drives_of, part_of, parts_of, signal_of};
ghost use Rattle.elab_parts.specs.BehaviourViews.{node_of};
ghost use Rattle.elab_wires.specs.Depths.{all_driving};
ghost use Rattle.elab_objects.specs.Driven.{driving_keyed};
ghost use Rattle.driver_checks.specs.Driving.{driving_listed, driving_besides};

use elab_parts::{Drive, NodeFunction, Part, Signal, WalkedNode};
use elab_wires::Signals;
use key_index::{KeyIndex, Keyed};
use std::alloc::Global;
use vf_base::NoMemory;

/// Adds the signal of a drive, where a bit of it is driven.
fn push_target<'n>(drive: &'n Drive, names: &mut Vec<&'n [u8]>) -> Result<(), NoMemory>
    ensures { OnOk result (keys_of names.new.items ≡ keys_of names.old.items ++ drive_signals (drive_of drive.now ∷ [])) }
{
    let outside = drive.bits.width == 0;
    if outside {
        return Ok(());
    }
    names.push(drive.signal.as_bytes())?;
    Ok(())
}

/// Adds the signals of which some drives drive a bit.
fn push_targets<'n>(drives: &'n [Drive], names: &mut Vec<&'n [u8]>) -> Result<(), NoMemory>
    ensures { OnOk result (keys_of names.new.items ≡ keys_of names.old.items ++ drive_signals (drives_of drives.now)) }
{
    'drives: for drive in drives {
        push_target(drive, names)?;
    }
    Ok(())
}

/// Adds the targets of a node, where it is a block.
fn push_block<'n>(node: &'n WalkedNode<'_, '_>, names: &mut Vec<&'n [u8]>) -> Result<(), NoMemory>
    ensures { OnOk result (keys_of names.new.items ≡ keys_of names.old.items ++ block_signals (node_of node.now)) }
{
    match &node.function {
        NodeFunction::Block(_) => {
            push_targets(node.drives.as_slice(), names)?;
            Ok(())
        }
        NodeFunction::Assign(_) | NodeFunction::Gate { .. } => Ok(()),
    }
}

/// The targets of the blocks among some nodes.
fn list_targets<'n>(
    alloc: Global,
    nodes: &'n [WalkedNode<'_, '_>],
) -> Result<Vec<&'n [u8]>, NoMemory>
    ensures { IfOk result (λ names. keys_of names.items ≡ flat_map block_signals (map node_of nodes.now)) }
{
    let mut names = Vec::new(alloc);
    'nodes: for node in nodes {
        push_block(node, &mut names)?;
    }
    Ok(names)
}

/// Whether a signal is a variable that is no block's target.
fn is_driving(signal: &Signal, targets: &KeyIndex<'_>) -> bool
    ensures { result ≡ (signal.now.is_reg && not (has_name targets.now signal.now.name)) }
{
    let target = targets.first(signal.name.as_bytes()).is_some();
    signal.is_reg && !target
}

/// Adds a signal under the outermost name of its object, where it drives.
fn push_signal<'p>(
    signals: &'p Signals<'_>,
    targets: &KeyIndex<'_>,
    signal: &'p Signal,
    items: &mut Vec<Keyed<'p, &'p Signal>>,
) -> Result<(), NoMemory>
    ensures { OnOk result (driving_listed items.new.items ≡ driving_listed items.old.items ++ driving_besides signals.now targets.now (signal_of signal.now ∷ [])) }
{
    let driving = is_driving(signal, targets);
    if !driving {
        return Ok(());
    }
    items.push(Keyed {
        key: signals.outermost(signal.name.as_bytes()),
        item: signal,
    })?;
    Ok(())
}

/// Adds a part, where it is a variable that drives.
fn push_part<'p>(
    signals: &'p Signals<'_>,
    targets: &KeyIndex<'_>,
    part: &'p Part<'_>,
    items: &mut Vec<Keyed<'p, &'p Signal>>,
) -> Result<(), NoMemory>
    ensures { OnOk result (driving_listed items.new.items ≡ driving_listed items.old.items ++ driving_besides signals.now targets.now (signals_of (part_of part.now ∷ []))) }
{
    match part {
        Part::Signal(signal) => {
            push_signal(signals, targets, signal, items)?;
            Ok(())
        }
        Part::Memory(_)
        | Part::Assign { .. }
        | Part::Gate { .. }
        | Part::Process(_)
        | Part::Instance => Ok(()),
    }
}

/// The variables among some parts that are no target of these names.
fn list_besides<'p>(
    alloc: Global,
    signals: &'p Signals<'_>,
    targets: &KeyIndex<'_>,
    parts: &'p [Part<'_>],
) -> Result<Vec<Keyed<'p, &'p Signal>>, NoMemory>
    ensures { IfOk result (λ items. driving_listed items.items ≡ driving_besides signals.now targets.now (signals_of (parts_of parts.now))) }
{
    let mut items = Vec::new(alloc);
    'parts: for part in parts {
        push_part(signals, targets, part, &mut items)?;
    }
    Ok(items)
}

/// The variables among some parts that drive, each under the outermost name of its object, in the order of the walk: those that are no target of a block
/// among some nodes.
pub fn list_driving<'p>(
    alloc: Global,
    signals: &'p Signals<'_>,
    nodes: &[WalkedNode<'_, '_>],
    parts: &'p [Part<'_>],
) -> Result<Vec<Keyed<'p, &'p Signal>>, NoMemory>
    requires { signals.now ≡ signals_of (parts_of parts.now) }
    ensures { IfOk result (λ items. map driving_keyed (map keyed_of items.items) ≡ all_driving signals.now (map node_of nodes.now) signals.now) }
{
    let names = list_targets(alloc, nodes)?;
    let targets = KeyIndex::new(alloc, names)?;
    let items = list_besides(alloc, signals, &targets, parts)?;
    Ok(items)
}
