// What nodes drive, by hierarchical names.

ghost use Rattle.std.specs.Prelude.{◌≡◌, ◌++◌, IfOk, map};
ghost use Rattle.v_tree.specs.Views.{select_of, target_of};
ghost use Rattle.v_elab.specs.Connections.{drives_of};
ghost use Rattle.elab_parts.specs.PartViews as views;
ghost use Rattle.select_bits.specs.Runs.{TakesRun, TakeRuns, TargetTakesRuns};
ghost use Rattle.elab_items.specs.Drives.{drive_of_select, drives_of_selects};

use elab_parts::Drive;
use select_bits::select_bits;
use std::alloc::Global;
use v_names::Scope;
use v_tree::{Select, Target};
use vf_base::{NoMemory, Seq, Text};

/// A name of an instance in the hierarchy, behind what stands before the names of that instance.
pub fn hierarchical(alloc: Global, path: &Text, name: &[u8]) -> Result<Text, NoMemory>
    ensures { IfOk result (λ whole. whole ≡ path.now ++ name.now) }
{
    let mut bytes = Vec::from_slice(alloc, path.as_bytes())?;
    bytes.extend_from_slice(name)?;
    Ok(Text::from_vec(bytes))
}

/// What a node drives by a select.
fn drive_of(
    alloc: Global,
    path: &Text,
    scope: &Scope<'_>,
    select: &Select,
) -> Result<Drive, NoMemory>
    ensures { IfOk result (λ drive. TakesRun scope.now (select_of select.now) → views.drive_of drive ≡ drive_of_select path.now scope.now (select_of select.now)) }
{
    let signal = hierarchical(alloc, path, select.name.as_bytes())?;
    let bits = select_bits(alloc, scope, select)?;
    Ok(Drive {
        signal,
        bits,
        place: select.place,
    })
}

/// What a node drives by selects, in their order.
fn drives_of_selects(
    alloc: Global,
    path: &Text,
    scope: &Scope<'_>,
    selects: &[Select],
) -> Result<Seq<Drive>, NoMemory>
    ensures { IfOk result (λ drives. TakeRuns scope.now (map select_of selects.now) → views.drives_of drives ≡ drives_of_selects path.now scope.now (map select_of selects.now)) }
{
    let mut drives = Vec::new(alloc);
    'selects: for select in selects {
        let drive = drive_of(alloc, path, scope, select)?;
        drives.push(drive)?;
    }
    Ok(Seq::from_vec(drives))
}

/// What a node drives that assigns a target of an instance, from the left of the target, each of whose selects takes a run of bits.
pub fn drives_of(
    alloc: Global,
    path: &Text,
    scope: &Scope<'_>,
    target: &Target,
) -> Result<Seq<Drive>, NoMemory>
    ensures { IfOk result (λ drives. TargetTakesRuns scope.now (target_of target.now) → views.drives_of drives ≡ drives_of path.now scope.now (target_of target.now)) }
{
    match target {
        Target::One(select) => {
            let mut drives = Vec::new(alloc);
            let drive = drive_of(alloc, path, scope, select)?;
            drives.push(drive)?;
            Ok(Seq::from_vec(drives))
        }
        Target::Joined(_, selects) => {
            let drives = drives_of_selects(alloc, path, scope, selects.as_slice())?;
            Ok(drives)
        }
    }
}
