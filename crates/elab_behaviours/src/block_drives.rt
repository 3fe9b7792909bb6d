// What a block that is a node drives: each of its targets whole.

ghost use Rattle.std.specs.Prelude.{◌≡◌, IfOk, map};
ghost use Rattle.vf_base.specs.Base.{source_place};
ghost use Rattle.v_comb.specs.CombinationalForm.{assigned_names};
ghost use Rattle.v_elab.specs.Drivers.{block_drive, assigned_place, signal_width, signal_named};
ghost use Rattle.elab_parts.specs.PartViews.{drive_of, process_of};
ghost use Rattle.elab_behaviours.specs.Assignments.{assignment_of};

use crate::assigned::push_assignments;
use elab_parts::{Drive, DrivenBits, WalkedProcess};
use elab_wires::{Signals, hierarchical};
use key_index::Grouped;
use std::alloc::Global;
use vf_base::{NoMemory, Place, Text};

/// How many bits a signal has, none where there is none of the name.
fn named_width(signals: &Signals<'_>, name: &[u8]) -> u8
    ensures { result ≡ signal_width (signal_named signals.now name.now) }
{
    match signals.named(name) {
        None => 0,
        Some(signal) => signal.range.width(),
    }
}

/// Where a name is first assigned.
fn first_place(process: &WalkedProcess<'_>, places: &Grouped<'_, Place>, name: &[u8]) -> Place
    requires { map assignment_of places.now ≡ assigned_names (process_of process.now).body }
    ensures { source_place result ≡ assigned_place (process_of process.now) name.now }
{
    match places.first(name) {
        None => process.place,
        Some(place) => place,
    }
}

/// How a block drives one of its targets.
fn target_drive(
    alloc: Global,
    signals: &Signals<'_>,
    process: &WalkedProcess<'_>,
    places: &Grouped<'_, Place>,
    name: &Text,
) -> Result<Drive, NoMemory>
    requires { map assignment_of places.now ≡ assigned_names (process_of process.now).body }
    ensures { IfOk result (λ drive. drive_of drive ≡ block_drive signals.now (process_of process.now) name.now) }
{
    let place = first_place(process, places, name.as_bytes());
    let signal = hierarchical(alloc, &process.path, name.as_bytes())?;
    let width = named_width(signals, signal.as_bytes());
    let bits = DrivenBits {
        outside_below: 0,
        low: 0,
        width: u64::from(width),
        outside_above: 0,
    };
    Ok(Drive {
        signal,
        bits,
        place,
    })
}

/// The drives that a block has of its targets.
pub fn block_drives(
    alloc: Global,
    signals: &Signals<'_>,
    process: &WalkedProcess<'_>,
    targets: &[Text],
) -> Result<Vec<Drive>, NoMemory>
    ensures { IfOk result (λ drives. map drive_of drives.items ≡ map (block_drive signals.now (process_of process.now)) targets.now) }
{
    let mut assigned = Vec::new(alloc);
    push_assignments(process.body, &mut assigned)?;
    let places = Grouped::new(alloc, assigned)?;
    let mut drives = Vec::new(alloc);
    'targets: for name in targets {
        drives.push(target_drive(alloc, signals, process, &places, name)?)?;
    }
    Ok(drives)
}
