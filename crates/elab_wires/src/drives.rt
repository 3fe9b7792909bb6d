// The selects that nodes drive, under the objects that they are of.

ghost use Rattle.std.specs.Prelude.{◌≡◌, ◌+◌, ◌<◌, ◌^◌, ◌++◌, IfOk, OnOk, length, map};
ghost use Rattle.key_index.specs.Groups.{keyed_of};
ghost use Rattle.v_elab.specs.Drivers.{drives_width};
ghost use Rattle.elab_parts.specs.PartViews.{places_of, drives_of};
ghost use Rattle.elab_parts.specs.BehaviourViews.{node_of, node_drives_of};
ghost use Rattle.elab_wires.specs.Drives.{keyed_drives, all_drives};
ghost use Rattle.elab_wires.specs.DriveViews.{drives_listed};

use crate::{ObjectDrive, Signals};
use elab_parts::{Drive, DrivenBits, WalkedNode};
use key_index::Keyed;
use std::alloc::Global;
use vf_base::NoMemory;

/// How many bits a select has.
fn select_width(bits: DrivenBits) -> u128
    ensures bits { result ≡ length (places_of bits) }
    ensures few { result < 2 ^ 34 }
{
    u128::from(bits.outside_below + bits.width + bits.outside_above)
}

/// How many bits some selects have together.
fn selects_width(drives: &[Drive]) -> u128
    ensures bits { result ≡ drives_width (drives_of drives.now) }
    ensures few { result < 2 ^ 99 }
{
    let mut width: u128 = 0;
    'drives: for drive in drives {
        width += select_width(drive.bits);
    }
    width
}

/// Adds the drives of a node under the outermost names of their signals. The rightmost select has the least bits of the node's value.
fn push_drives<'w>(
    signals: &'w Signals<'_>,
    node: usize,
    drives: &'w [Drive],
    items: &mut Vec<Keyed<'w, ObjectDrive>>,
) -> Result<(), NoMemory>
    ensures { OnOk result (drives_listed items.new.items ≡ drives_listed items.old.items ++ keyed_drives signals.now node (drives_of drives.now)) }
{
    let mut offset = selects_width(drives);
    'drives: for drive in drives {
        offset -= select_width(drive.bits);
        items.push(Keyed {
            key: signals.outermost(drive.signal.as_bytes()),
            item: ObjectDrive {
                node,
                offset,
                bits: drive.bits,
                place: drive.place,
            },
        })?;
    }
    Ok(())
}

/// The drives of all nodes under the outermost names of their signals, in the order of the walk.
pub fn list_drives<'w>(
    alloc: Global,
    signals: &'w Signals<'_>,
    nodes: &'w [WalkedNode<'_, '_>],
) -> Result<Vec<Keyed<'w, ObjectDrive>>, NoMemory>
    ensures { IfOk result (λ items. drives_listed items.items ≡ all_drives signals.now 0 (map node_of nodes.now)) }
{
    let mut items = Vec::new(alloc);
    'nodes: for (number, node) in nodes.iter().enumerate() {
        push_drives(signals, number, node.drives.as_slice(), &mut items)?;
    }
    Ok(items)
}
