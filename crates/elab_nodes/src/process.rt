// The processes of a design.

ghost use Rattle.std.specs.Prelude.{◌≡◌, ◌∷◌, [], IfOk, List, map};
ghost use Rattle.v_design.specs.Plain.{process_of};
ghost use Rattle.v_elab.specs.Parts.{Part};
ghost use Rattle.v_elab.specs.Objects.{HeldObject};
ghost use Rattle.v_elab.specs.Flat as plain;
ghost use Rattle.elab_parts.specs.PartViews as walked;
ghost use Rattle.elab_parts.specs.BehaviourViews.{process_in};
ghost use Rattle.elab_nodes.specs.Bases.{IsBasis};
ghost use Rattle.elab_nodes.specs.Processes.{IsMeantBy};
ghost use Rattle.elab_nodes.specs.Texts.{HasSizedProcesses};

use crate::basis::Basis;
use elab_parts::{ProcessPart, WalkedProcess};
use object_names::InstanceNames;
use object_statements::{Meaning, statement_over};
use std::alloc::Global;
use v_design::Process;
use vf_base::NoMemory;

/// What the names of a process mean.
pub fn meaning_of<'n, 'u>(basis: Basis<'n>, process: &'n WalkedProcess<'u>) -> Meaning<'n, 'u>
    ensures { IsMeantBy basis.entry (walked.process_of process.now) result }
{
    Meaning {
        scope: &process.scope,
        names: InstanceNames {
            names: basis.names,
            path: &process.path,
        },
        widths: basis.widths,
    }
}

/// A process over objects.
fn flat_process(
    alloc: Global,
    basis: Basis<'_>,
    process: &WalkedProcess<'_>,
) -> Result<Process, NoMemory>
    requires { HasSizedProcesses basis (walked.process_of process.now ∷ []) }
    ensures { IfOk result (λ flat. (parts : List Part) (objects : List HeldObject) → IsBasis parts objects basis.entry →
        process_of flat ≡ plain.flat_process parts objects (walked.process_of process.now)) }
{
    let body = statement_over(alloc, meaning_of(basis, process), process.body)?;
    Ok(Process {
        always: process.always,
        body,
        place: process.place,
    })
}

/// Some processes over objects, in their order; their texts are sized.
///
/// # Errors
///
/// Want of memory.
pub fn flat_processes(
    alloc: Global,
    basis: Basis<'_>,
    processes: &[ProcessPart<'_, '_>],
) -> Result<Vec<Process>, NoMemory>
    requires { HasSizedProcesses basis (map process_in processes.now) }
    ensures { IfOk result (λ flats. (parts : List Part) (objects : List HeldObject) → IsBasis parts objects basis.entry →
        map process_of flats.items ≡ map (plain.flat_process parts objects) (map process_in processes.now)) }
{
    let mut flats = Vec::new(alloc);
    'processes: for process in processes {
        flats.push(flat_process(alloc, basis, process.process)?)?;
    }
    Ok(flats)
}
