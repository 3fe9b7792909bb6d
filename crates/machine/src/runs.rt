// The ends of process runs.

ghost use Rattle.std.specs.Prelude.{◌≡◌, ◌<◌, [], true, length, Some, IfOk, IfSome, OnOk, is_some};
ghost use Rattle.std.specs.Option.{option_map};
ghost use Rattle.vf_base.specs.Base.{process_number};
ghost use Rattle.v_design.specs.Assignments.{value_at};
ghost use Rattle.process_code.specs.RunEnds.{act_by};
ghost use Rattle.run_record.specs.RunRecords.{runs_so_far};
ghost use Rattle.net_state.specs.States.{values_in};
ghost use Rattle.process_table.specs.Arranged.{IsKept, table_of};
ghost use Rattle.process_table.specs.Deeds.{read_by};
ghost use Rattle.process_table.specs.Tables.{process_in};
ghost use Rattle.machine.specs.Standing.{IsStanding, StaysStanding, notes_runs, runs_kept};
ghost use Rattle.machine.specs.RunNotes.{IsTaken, NotesRun, StandsBefore, told_act};

use crate::parts::Machine;
use four_value::Vec4;
use net_state::NetState;
use process_code::{ProcState, RunEnd, StepAct, StepTaken};
use process_table::{Act, ProcessTable, Stepped};
use run_record::RunRecord;
use std::alloc::Global;
use v_design::Values;
use vf_base::{NoMemory, ProcId};

/// Where a process stands before a step, where runs are noted.
///
/// # Errors
///
/// Want of memory.
pub(crate) fn state_before(
    table: &ProcessTable,
    noting: bool,
    process: ProcId,
) -> Result<Option<ProcState>, NoMemory>
    requires kept { IsKept table.now }
    requires number { process_number process < length (table_of table.now).processes }
    ensures noted { IfOk result (λ found. is_some found ≡ true → noting ≡ true) }
    ensures stands { IfOk result (λ found. noting ≡ true →
        StandsBefore (table_of table.now).design (process_number process) (process_in (table_of table.now) (process_number process)).activity found) }
{
    if !noting {
        return Ok(None);
    }
    let state = table.copy_state(process)?;
    Ok(Some(state))
}

/// What a step did.
fn step_act(stepped: &Stepped) -> StepAct
    ensures { act_by result ≡ told_act stepped.now.act stepped.now.later }
{
    match stepped.act {
        Some(Act::Read(object)) => StepAct::Read(object),
        Some(Act::Write(update)) => StepAct::Write(update),
        None => match stepped.later {
            Some(due) => StepAct::Append(due),
            None => StepAct::Inner,
        },
    }
}

/// The value that a step read, if it read one. It has changed none yet.
fn value_read(nets: &NetState, stepped: &Stepped) -> Option<Vec4>
    requires { IfSome (read_by stepped.now.act) (λ object. object < length (values_in nets.now)) }
    ensures { result ≡ option_map (value_at (values_in nets.now)) (read_by stepped.now.act) }
{
    match stepped.act {
        Some(Act::Read(object)) => Some(nets.value(object)),
        Some(Act::Write(_)) => None,
        None => None,
    }
}

/// A step as it is kept, with where its process stood before it.
fn step_taken(nets: &NetState, stepped: &Stepped, state: ProcState) -> StepTaken
    requires { IfSome (read_by stepped.now.act) (λ object. object < length (values_in nets.now)) }
    ensures { IsTaken stepped.now (values_in nets.now) state result }
{
    StepTaken {
        line: stepped.line,
        act: step_act(stepped),
        read: value_read(nets, stepped),
        state,
    }
}

/// Notes a step that a process took in the phase of a number from where it stood, and the end of its run where the step ended it.
fn note_taken(
    runs: &mut RunRecord,
    state: ProcState,
    nets: &NetState,
    table: &ProcessTable,
    phase: u32,
    process: ProcId,
    stepped: &Stepped,
) -> Result<(), NoMemory>
    requires kept { IsKept table.now }
    requires process { process_number process < length (table_of table.now).processes }
    requires room { length (runs_so_far runs.old) ≡ length (table_of table.now).processes }
    requires there { IfSome (read_by stepped.now.act) (λ object. object < length (values_in nets.now)) }
    ensures { OnOk result (NotesRun phase (process_number process) (Some state) stepped.now (values_in nets.now) table.now runs.old runs.new) }
{
    let step = step_taken(nets, stepped, state);
    if stepped.ready {
        runs.go_on(process, step)?;
        return Ok(());
    }
    let after = table.copy_state(process)?;
    runs.end(phase, process, step, after)?;
    Ok(())
}

/// Notes a step that a process took in the phase of a number, and the end of its run where the step ended it; nothing where runs aren't noted, so that it isn't kept
/// where the process stood before it.
///
/// # Errors
///
/// Want of memory.
pub(crate) fn note_run(
    runs: &mut RunRecord,
    before: Option<ProcState>,
    nets: &NetState,
    table: &ProcessTable,
    phase: u32,
    process: ProcId,
    stepped: &Stepped,
) -> Result<(), NoMemory>
    requires kept { IsKept table.now }
    requires process { process_number process < length (table_of table.now).processes }
    requires room { is_some before ≡ true → length (runs_so_far runs.old) ≡ length (table_of table.now).processes }
    requires there { IfSome (read_by stepped.now.act) (λ object. object < length (values_in nets.now)) }
    ensures { OnOk result (NotesRun phase (process_number process) before stepped.now (values_in nets.now) table.now runs.old runs.new) }
{
    match before {
        Some(state) => {
            note_taken(runs, state, nets, table, phase, process, stepped)?;
            Ok(())
        }
        None => Ok(()),
    }
}

impl<'d> Machine<'d> {
    /// The ends of process runs are noted from the next slot on. That takes memory and time, and a machine begins without.
    ///
    /// # Errors
    ///
    /// Want of memory.
    pub fn note_runs(&mut self, alloc: Global) -> Result<(), NoMemory>
        requires { IsStanding self.old }
        ensures notes { OnOk result (notes_runs self.new ≡ true) }
        ensures stays { OnOk result (StaysStanding self.old self.new) }
    {
        let processes = self.graph.design.processes.as_slice().len();
        let runs = RunRecord::new(alloc, processes)?;
        self.runs = runs;
        self.noting = true;
        Ok(())
    }

    /// The ends of the process runs of the slot that was run last, in the order in which the runs ended; none are kept afterwards. The machine is otherwise as it was.
    pub fn take_runs(&mut self) -> Vec<RunEnd>
        requires standing { IsStanding self.old }
        requires notes { notes_runs self.old ≡ true }
        ensures runs { result.items ≡ runs_kept self.old }
        ensures none { runs_kept self.new ≡ [] }
        ensures notes { notes_runs self.new ≡ true }
        ensures stays { StaysStanding self.old self.new }
    {
        self.runs.take()
    }
}
