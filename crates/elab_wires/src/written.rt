// The names that the parts of a walk write.

ghost use Rattle.std.specs.Prelude.{◌≡◌, ◌++◌, ◌∷◌, [], IfOk, OnOk, map, filter, option_map};
ghost use Rattle.key_index.specs.Places.{keys_of};
ghost use Rattle.v_names.specs.Scopes.{is_reg, looked_up};
ghost use Rattle.v_names.specs.ScopeViews.{entry_of};
ghost use Rattle.v_elab.specs.Drivers.{target_signals, variables_assigned, drives_some, drive_signals, signals_written};
ghost use Rattle.elab_parts.specs.PartViews.{drive_of, drives_of, process_of, part_of, parts_of};
ghost use Rattle.elab_wires.specs.WrittenNames.{written_of, written_by, written_from};
ghost use Rattle.elab_wires.specs.Assigned.{variables_among};

use elab_parts::{Drive, Part, WalkedProcess};
use std::alloc::Global;
use v_comb::push_assigned;
use v_names::{Entry, Scope};
use vf_base::{NoMemory, Text};

/// A name that a part writes, and the part's number.
#[derive(Drop)]
pub struct Written {
    pub name: Text,
    pub part: usize,
}

/// A name of an instance with what stands before it in the hierarchy.
pub fn hierarchical(alloc: Global, path: &Text, name: &[u8]) -> Result<Text, NoMemory>
    ensures { IfOk result (λ whole. whole ≡ path.now ++ name.now) }
{
    let mut bytes = Vec::from_slice(alloc, path.as_bytes())?;
    bytes.extend_from_slice(name)?;
    Ok(Text::from_vec(bytes))
}

/// Whether what a name means is a variable.
fn is_reg_entry(entry: Option<Entry>) -> bool
    ensures { result ≡ is_reg (option_map entry_of entry) }
{
    match entry {
        Some(Entry::Reg { .. }) => true,
        _ => false,
    }
}

/// Whether a name of a scope is a variable.
fn is_variable(scope: &Scope<'_>, name: &Text) -> bool
    ensures { result ≡ is_reg (looked_up scope.now name.now) }
{
    is_reg_entry(scope.lookup(name))
}

/// Adds a name that a process assigns, where it is a variable.
fn push_variable(
    alloc: Global,
    process: &WalkedProcess<'_>,
    part: usize,
    name: &[u8],
    written: &mut Vec<Written>,
) -> Result<(), NoMemory>
    ensures { OnOk result (map written_of written.new.items ≡ map written_of written.old.items ++ written_by part (variables_among (process_of process.now) (name.now ∷ []))) }
{
    let own = Text::from_bytes(alloc, name)?;
    let known = is_variable(&process.scope, &own);
    if !known {
        return Ok(());
    }
    let name = hierarchical(alloc, &process.path, name)?;
    written.push(Written { name, part })?;
    Ok(())
}

/// Adds those of some names that are variables.
fn push_variables_among(
    alloc: Global,
    process: &WalkedProcess<'_>,
    part: usize,
    names: &[&[u8]],
    written: &mut Vec<Written>,
) -> Result<(), NoMemory>
    ensures { OnOk result (map written_of written.new.items ≡ map written_of written.old.items ++ written_by part (variables_among (process_of process.now) (keys_of names.now))) }
{
    'names: for name in names {
        push_variable(alloc, process, part, name, written)?;
    }
    Ok(())
}

/// Adds the variables that a process assigns.
fn push_variables(
    alloc: Global,
    process: &WalkedProcess<'_>,
    part: usize,
    written: &mut Vec<Written>,
) -> Result<(), NoMemory>
    ensures { OnOk result (map written_of written.new.items ≡ map written_of written.old.items ++ written_by part (variables_assigned (process_of process.now))) }
{
    let mut names = Vec::new(alloc);
    push_assigned(process.body, &mut names)?;
    push_variables_among(alloc, process, part, &names, written)?;
    Ok(())
}

/// Adds the signal of a drive, where a bit of it is driven.
fn push_drive(
    alloc: Global,
    drive: &Drive,
    part: usize,
    written: &mut Vec<Written>,
) -> Result<(), NoMemory>
    ensures { OnOk result (map written_of written.new.items ≡ map written_of written.old.items ++ written_by part (drive_signals (drive_of drive.now ∷ []))) }
{
    let outside = drive.bits.width == 0;
    if outside {
        return Ok(());
    }
    let name = Text::from_bytes(alloc, drive.signal.as_bytes())?;
    written.push(Written { name, part })?;
    Ok(())
}

/// Adds the signals of which some drives drive a bit.
fn push_drives(
    alloc: Global,
    drives: &[Drive],
    part: usize,
    written: &mut Vec<Written>,
) -> Result<(), NoMemory>
    ensures { OnOk result (map written_of written.new.items ≡ map written_of written.old.items ++ written_by part (drive_signals (drives_of drives.now))) }
{
    'drives: for drive in drives {
        push_drive(alloc, drive, part, written)?;
    }
    Ok(())
}

/// Adds the names that a part writes.
fn push_written(
    alloc: Global,
    part: &Part<'_>,
    number: usize,
    written: &mut Vec<Written>,
) -> Result<(), NoMemory>
    ensures { OnOk result (map written_of written.new.items ≡ map written_of written.old.items ++ written_by number (signals_written (part_of part.now))) }
{
    match part {
        Part::Assign { drives, .. } => {
            push_drives(alloc, drives.as_slice(), number, written)?;
            Ok(())
        }
        Part::Gate { drives, .. } => {
            push_drives(alloc, drives.as_slice(), number, written)?;
            Ok(())
        }
        Part::Process(process) => {
            push_variables(alloc, process, number, written)?;
            Ok(())
        }
        Part::Signal(_) | Part::Memory(_) | Part::Instance => Ok(()),
    }
}

/// The names that some parts write, with the parts' numbers.
pub fn list_written(alloc: Global, parts: &[Part<'_>]) -> Result<Vec<Written>, NoMemory>
    ensures { IfOk result (λ written. map written_of written.items ≡ written_from 0 (parts_of parts.now)) }
{
    let mut written = Vec::new(alloc);
    'parts: for (number, part) in parts.iter().enumerate() {
        push_written(alloc, part, number, &mut written)?;
    }
    Ok(written)
}
