// The objects of the parts of a walk.

ghost use Rattle.std.specs.Prelude.{◌≡◌, ◌++◌, IfOk, OnOk, map, flat_map, option_map};
ghost use Rattle.vf_base.specs.Lists.{AllHold};
ghost use Rattle.elab_parts.specs.PartViews.{part_of, parts_of, signal_of};
ghost use Rattle.elab_wires.specs.SignalTables.{signal_borrowed};
ghost use Rattle.elab_wires.specs.DriveViews.{drive_keyed};
ghost use Rattle.elab_wires.specs.Depths.{sooner};
ghost use Rattle.elab_objects.specs.ObjectViews.{held_objects};
ghost use Rattle.elab_objects.specs.Driven.{driving_keyed, first_by_depth, objects_by, HasOneDriver, part_objects_by, PartHasOneDriver};

use crate::object::HeldObject;
use crate::pieces::push_net;
use crate::words::{push_words, variable_object};
use elab_parts::{Part, Signal};
use elab_wires::ObjectDrive;
use key_index::Grouped;
use std::alloc::Global;
use vf_base::NoMemory;

/// Of two variables the one that stands less deep, and the first where they stand as deep.
pub fn earlier<'p>(first: Option<&'p Signal>, signal: &'p Signal) -> &'p Signal
    ensures { signal_borrowed result ≡ sooner (signal_of signal.now) (option_map signal_borrowed first.entry) }
{
    match first {
        None => signal,
        Some(other) => {
            if signal.depth < other.depth {
                signal
            } else {
                other
            }
        }
    }
}

/// The variable that stands least deep, and the first of the walk among those that stand as deep.
fn first_by_depth<'p>(signals: &[&'p Signal]) -> Option<&'p Signal>
    ensures { option_map signal_borrowed result ≡ first_by_depth (map signal_borrowed signals.now) }
{
    let mut first: Option<&'p Signal> = None;
    'signals: for signal in signals {
        first = Some(earlier(first, *signal));
    }
    first
}

/// Adds the objects of a net or a variable that isn't joined into another one.
fn push_signal(
    alloc: Global,
    drives: &Grouped<'_, ObjectDrive>,
    driving: &Grouped<'_, &Signal>,
    signal: &Signal,
    objects: &mut Vec<HeldObject>,
) -> Result<(), NoMemory>
    requires { HasOneDriver (map drive_keyed drives.now) (map driving_keyed driving.now) (signal_of signal.now) }
    ensures { OnOk result (held_objects objects.new.items ≡ held_objects objects.old.items ++ objects_by (map drive_keyed drives.now) (map driving_keyed driving.now) (signal_of signal.now)) }
{
    let name = signal.name.as_bytes();
    let variables = driving.all(alloc, name)?;
    match first_by_depth(&variables) {
        Some(first) => {
            let object = variable_object(alloc, signal, first)?;
            objects.push(object)?;
            Ok(())
        }
        None => {
            let selects = drives.all(alloc, name)?;
            push_net(alloc, signal, &selects, objects)?;
            Ok(())
        }
    }
}

/// Adds the objects of a part: those of a net or a variable that isn't joined into another one, or the words of a memory.
fn push_part(
    alloc: Global,
    drives: &Grouped<'_, ObjectDrive>,
    driving: &Grouped<'_, &Signal>,
    part: &Part<'_>,
    objects: &mut Vec<HeldObject>,
) -> Result<(), NoMemory>
    requires { PartHasOneDriver (map drive_keyed drives.now) (map driving_keyed driving.now) (part_of part.now) }
    ensures { OnOk result (held_objects objects.new.items ≡ held_objects objects.old.items ++ part_objects_by (map drive_keyed drives.now) (map driving_keyed driving.now) (part_of part.now)) }
{
    match part {
        Part::Signal(signal) => {
            if signal.joined.is_none() {
                push_signal(alloc, drives, driving, signal, objects)?;
            }
            Ok(())
        }
        Part::Memory(memory) => {
            push_words(alloc, memory, objects)?;
            Ok(())
        }
        Part::Assign { .. } | Part::Gate { .. } | Part::Process(_) | Part::Instance => Ok(()),
    }
}

/// The objects of some parts, in the order of the walk.
pub fn objects_of_parts(
    alloc: Global,
    drives: &Grouped<'_, ObjectDrive>,
    driving: &Grouped<'_, &Signal>,
    parts: &[Part<'_>],
) -> Result<Vec<HeldObject>, NoMemory>
    requires { AllHold (PartHasOneDriver (map drive_keyed drives.now) (map driving_keyed driving.now)) (parts_of parts.now) }
    ensures { IfOk result (λ objects. held_objects objects.items ≡ flat_map (part_objects_by (map drive_keyed drives.now) (map driving_keyed driving.now)) (parts_of parts.now)) }
{
    let mut objects = Vec::new(alloc);
    'parts: for part in parts {
        push_part(alloc, drives, driving, part, &mut objects)?;
    }
    Ok(objects)
}
