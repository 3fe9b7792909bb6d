// The record of process runs.

ghost use Rattle.std.specs.Prelude.{◌≡◌, ◌<◌, ◌++◌, [], length, map, set, get_or, IfOk, OnOk};
ghost use Rattle.std.specs.List.{All};
ghost use Rattle.vf_base.specs.Base.{process_number};
ghost use Rattle.process_code.specs.RunEnds.{act_by};
ghost use Rattle.run_record.specs.Notes.{SoFar, nothing_so_far, with_act, with_step};
ghost use Rattle.run_record.specs.RunRecords.{so_far, runs_so_far, IsAtRest, NotesStep, NotesEnd, IsEndOf};

use process_code::{ProcState, RunEnd, StepAct, StepTaken};
use std::alloc::Global;
use std::mem;
use v_design::{Due, Update};
use vf_base::{NoMemory, ProcId, Seq};

/// What the present run of a process appended and wrote so far, and its steps, in order; nothing where it is in no run. The memory is used again from run to run.
#[derive(Drop)]
struct RunSoFar {
    later: Vec<Due>,
    writes: Vec<Update>,
    steps: Vec<StepTaken>,
}

/// The process runs of a slot: the present one of each process, and the ends of those that ended, in the order in which they ended.
///
/// After a call that ran out of memory a record isn't to be used again.
#[derive(Drop)]
pub struct RunRecord {
    alloc: Global,
    present: Vec<RunSoFar>,
    ended: Vec<RunEnd>,
}

/// For how many ends of runs room is made at once at most.
const MOST_ROOM: usize = 256;

/// Makes room for the first ends of a slot's runs where there is none: for one of each process, where these are few.
fn make_room(ended: &mut Vec<RunEnd>, processes: usize) -> Result<(), NoMemory>
    ensures { OnOk result (ended.new.items ≡ ended.old.items) }
{
    if ended.capacity() > 0 {
        return Ok(());
    }
    ended.reserve(processes.min(MOST_ROOM))?;
    Ok(())
}

/// Empties a list, whose memory is used again, into one that takes just as much as it needs.
fn take_list<T: Drop>(alloc: Global, list: &mut Vec<T>) -> Result<Seq<T>, NoMemory>
    ensures taken { IfOk result (λ taken. taken ≡ list.old.items) }
    ensures empty { OnOk result (list.new.items ≡ []) }
{
    if list.is_empty() {
        return Ok(Seq::from_vec(Vec::new(alloc)));
    }
    let mut taken = Vec::with_capacity(alloc, list.len())?;
    taken.append(list)?;
    Ok(Seq::from_vec(taken))
}

impl RunSoFar {
    /// A run of which nothing is kept yet.
    fn none(alloc: Global) -> RunSoFar
        ensures { so_far result ≡ nothing_so_far }
    {
        RunSoFar {
            later: Vec::new(alloc),
            writes: Vec::new(alloc),
            steps: Vec::new(alloc),
        }
    }

    /// A step's act appends an update, or writes one, or does neither.
    fn note_act(&mut self, act: &StepAct) -> Result<(), NoMemory>
        ensures { OnOk result (so_far self.new ≡ with_act (act_by act.now) (so_far self.old)) }
    {
        match act {
            StepAct::Append(due) => {
                self.later.push(*due)?;
                Ok(())
            }
            StepAct::Write(update) => {
                self.writes.push(*update)?;
                Ok(())
            }
            StepAct::Read(_) => Ok(()),
            StepAct::Inner => Ok(()),
        }
    }

    /// The run goes on by a step.
    fn go_on(&mut self, step: StepTaken) -> Result<(), NoMemory>
        ensures { OnOk result (so_far self.new ≡ with_step step (so_far self.old)) }
    {
        self.note_act(&step.act)?;
        self.steps.push(step)?;
        Ok(())
    }

    /// The run ends where its process stands in a state; of the process's next run nothing is kept yet.
    fn end(
        &mut self,
        alloc: Global,
        phase: u32,
        process: ProcId,
        state: ProcState,
    ) -> Result<RunEnd, NoMemory>
        ensures run { IfOk result (λ run. IsEndOf phase (process_number process) state (so_far self.old) run) }
        ensures next { OnOk result (so_far self.new ≡ nothing_so_far) }
    {
        let later = take_list(alloc, &mut self.later)?;
        let writes = take_list(alloc, &mut self.writes)?;
        let steps = take_list(alloc, &mut self.steps)?;
        Ok(RunEnd {
            phase,
            process,
            state,
            later,
            writes,
            steps,
        })
    }
}

/// A run of each of so many processes of which nothing is kept yet.
fn no_runs(alloc: Global, processes: usize) -> Result<Vec<RunSoFar>, NoMemory>
    ensures count { IfOk result (λ runs. length runs.items ≡ processes) }
    ensures nothing { IfOk result (λ runs. All (λ (told : SoFar). told ≡ nothing_so_far) (map so_far runs.items)) }
{
    let mut runs = Vec::new(alloc);
    'processes: for _process in 0..processes {
        runs.push(RunSoFar::none(alloc))?;
    }
    Ok(runs)
}

/// The present run of a process goes on by a step.
fn go_on_at(runs: &mut Vec<RunSoFar>, process: ProcId, step: StepTaken) -> Result<(), NoMemory>
    requires { process_number process < length runs.old.items }
    ensures { OnOk result (map so_far runs.new.items ≡ set (map so_far runs.old.items) (process_number process) (with_step step
        (get_or (map so_far runs.old.items) (process_number process) nothing_so_far))) }
{
    runs[process.0 as usize].go_on(step)?;
    Ok(())
}

/// The present run of a process ends.
fn end_at(
    runs: &mut Vec<RunSoFar>,
    alloc: Global,
    phase: u32,
    process: ProcId,
    state: ProcState,
) -> Result<RunEnd, NoMemory>
    requires { process_number process < length runs.old.items }
    ensures run { IfOk result (λ run. IsEndOf phase (process_number process) state (get_or (map so_far runs.old.items) (process_number process) nothing_so_far) run) }
    ensures next { OnOk result (map so_far runs.new.items ≡ set (map so_far runs.old.items) (process_number process) nothing_so_far) }
{
    let run = runs[process.0 as usize].end(alloc, phase, process, state)?;
    Ok(run)
}

impl RunRecord {
    /// A record for so many processes, none of which is in a run.
    ///
    /// # Errors
    ///
    /// Want of memory.
    pub fn new(alloc: Global, processes: usize) -> Result<RunRecord, NoMemory>
        ensures { IfOk result (λ kept. IsAtRest processes kept) }
    {
        let present = no_runs(alloc, processes)?;
        Ok(RunRecord {
            alloc,
            present,
            ended: Vec::new(alloc),
        })
    }

    /// A record for no processes, which takes no memory.
    pub fn none(alloc: Global) -> RunRecord
        ensures { IsAtRest 0 result }
    {
        RunRecord {
            alloc,
            present: Vec::new(alloc),
            ended: Vec::new(alloc),
        }
    }

    /// A slot begins: no run has ended yet.
    pub fn begin_slot(&mut self)
        ensures none { self.new.ended.items ≡ [] }
        ensures stays { runs_so_far self.new ≡ runs_so_far self.old }
    {
        self.ended.clear();
    }

    /// Notes a step of a process after which it is ready.
    ///
    /// # Errors
    ///
    /// Want of memory.
    pub fn go_on(&mut self, process: ProcId, step: StepTaken) -> Result<(), NoMemory>
        requires { process_number process < length (runs_so_far self.old) }
        ensures { OnOk result (NotesStep (process_number process) step self.old self.new) }
    {
        copy_laws::own_runs();
        present_runs::present_runs_lead();
        go_on_at(&mut self.present, process, step)?;
        Ok(())
    }

    /// Notes a step of a process that ends its run in the phase of a number, and where the process stands then.
    ///
    /// # Errors
    ///
    /// Want of memory.
    pub fn end(
        &mut self,
        phase: u32,
        process: ProcId,
        step: StepTaken,
        state: ProcState,
    ) -> Result<(), NoMemory>
        requires { process_number process < length (runs_so_far self.old) }
        ensures { OnOk result (NotesEnd phase (process_number process) step state self.old self.new) }
    {
        copy_laws::own_runs();
        present_runs::present_runs_lead();
        go_on_at(&mut self.present, process, step)?;
        let run = end_at(&mut self.present, self.alloc, phase, process, state)?;
        make_room(&mut self.ended, self.present.len())?;
        self.ended.push(run)?;
        Ok(())
    }

    /// The ends of the runs that ended since the slot began, in the order in which they ended; none are kept afterwards.
    pub fn take(&mut self) -> Vec<RunEnd>
        ensures runs { result.items ≡ self.old.ended.items }
        ensures none { self.new.ended.items ≡ [] }
        ensures stays { runs_so_far self.new ≡ runs_so_far self.old }
    {
        mem::replace(&mut self.ended, Vec::new(self.alloc))
    }
}
