// What is wrong with event controls and with `wait`.

ghost use Rattle.std.specs.Prelude.{◌≡◌, ◌||◌, OnOk, map, flat_map};
ghost use Rattle.v_tree.specs.Trees.{SourceEntry};
ghost use Rattle.v_tree.specs.Views.{expression_of, select_of, entry_of, waits_of};
ghost use Rattle.v_names.specs.Scopes.{looked_up, is_parameter, is_memory};
ghost use Rattle.v_elab.specs.ItemFaults.{wait_faults, entry_select_faults, waits_faults};
ghost use Rattle.name_checks.specs.Noted.{noted};

use crate::groups::note_group;
use crate::memories::{is_memory, memory_faults};
use expr_sizes::{own_reading, select_reading};
use name_checks::FirstFault;
use std::alloc::Global;
use v_names::{Entry as Meaning, Found, Reason, Scope};
use v_tree::{Entry, Expr, Select, Waits};
use v_width::together;
use vf_base::{NoMemory, Text};

/// Notes what is wrong with the condition of a `wait`, which may name no memory.
pub fn note_wait(
    alloc: Global,
    scope: &Scope<'_>,
    condition: &Expr,
    first: &mut FirstFault,
) -> Result<(), NoMemory>
    ensures { OnOk result (first.new ≡ noted first.old (wait_faults scope.now (expression_of condition.now))) }
{
    let memories = memory_faults(scope, condition);
    let read = own_reading(alloc, condition, scope)?;
    note_group(together(memories, read.faults), first);
    Ok(())
}

/// Whether a name is that of a parameter.
fn is_parameter(scope: &Scope<'_>, name: &Text) -> bool
    ensures { result ≡ is_parameter (looked_up scope.now name.now) }
{
    match scope.lookup(name) {
        Some(Meaning::Param(_, _)) => true,
        Some(Meaning::RefusedParam) => true,
        Some(Meaning::WaitingParam) => true,
        _ => false,
    }
}

/// Whether a name is that of a parameter or of a memory.
fn never_changes_whole(scope: &Scope<'_>, name: &Text) -> bool
    ensures { result ≡ (is_parameter (looked_up scope.now name.now) || is_memory (looked_up scope.now name.now)) }
{
    is_parameter(scope, name) || is_memory(scope, name)
}

/// Notes what is wrong with what an entry of an event control names: no parameter and no memory.
fn note_entry_select(
    alloc: Global,
    scope: &Scope<'_>,
    select: &Select,
    first: &mut FirstFault,
) -> Result<(), NoMemory>
    ensures { OnOk result (first.new ≡ noted first.old (entry_select_faults scope.now (select_of select.now))) }
{
    if never_changes_whole(scope, &select.name) {
        first.note(Found {
            place: select.place,
            reason: Reason::WrongKind,
        });
        return Ok(());
    }
    let read = select_reading(alloc, select, scope)?;
    note_group(read.faults, first);
    Ok(())
}

/// Notes what is wrong with the entries of an event control.
fn note_entries(
    alloc: Global,
    scope: &Scope<'_>,
    entries: &[Entry],
    first: &mut FirstFault,
) -> Result<(), NoMemory>
    ensures { OnOk result (first.new ≡ noted first.old (flat_map (λ (e : SourceEntry). entry_select_faults scope.now e.select) (map entry_of entries.now))) }
{
    'entries: for entry in entries {
        note_entry_select(alloc, scope, &entry.select, first)?;
    }
    Ok(())
}

/// Notes what is wrong with an event control.
pub fn note_waits(
    alloc: Global,
    scope: &Scope<'_>,
    waits: &Waits,
    first: &mut FirstFault,
) -> Result<(), NoMemory>
    ensures { OnOk result (first.new ≡ noted first.old (waits_faults scope.now (waits_of waits.now))) }
{
    match waits {
        Waits::AnyRead => Ok(()),
        Waits::Entries(entries) => {
            note_entries(alloc, scope, entries.as_slice(), first)?;
            Ok(())
        }
    }
}
