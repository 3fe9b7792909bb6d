// How a process's next step is made.

ghost use Rattle.std.specs.Prelude.{◌≡◌, ◌↔◌, ◌<◌, false, length, IsTrue, MatchOption};
ghost use Rattle.vf_base.specs.Base.{process_number};
ghost use Rattle.net_state.specs.States.{values_in};
ghost use Rattle.process_table.specs.Arranged.{IsKept, table_of};
ghost use Rattle.runs_beside.specs.Beside.{HasPlace, IsAloneHere, IsBesideHere, IsKnownHere, IsOwnHere, IsSomewhere};
ghost use Rattle.runs_beside.specs.Choice.{BeginsAlike, BeginsOtherwise, ComesLater, ComesNext};
ghost use Rattle.runs_beside.specs.Runs.{run_at};

use crate::beside::RunsBeside;
use crate::run::RunSoFar;
use good_runs::TriedStep;
use known_steps::{KnownStep, known_step, step_at};
use net_state::NetState;
use process_code::RunEnd;
use process_table::ProcessTable;
use vf_base::ProcId;

/// Whether a process does what it did where a run of the good machine began.
fn begins_alike(table: &ProcessTable, process: ProcId, good: &RunEnd) -> bool
    requires kept { IsKept table.now }
    requires number { process_number process < length (table_of table.now).processes }
    ensures alike { IsTrue result → BeginsAlike table.now (process_number process) good.now }
    ensures otherwise { result ≡ false → BeginsOtherwise table.now (process_number process) good.now }
{
    match step_at(good, 0) {
        Some(step) => table.stands_at(process, &step.state),
        None => false,
    }
}

/// Whether a step that was tried has the place of the next step of a run.
fn has_place(one: &TriedStep, phase: u32, process: ProcId, run: RunSoFar) -> bool
    ensures { IsTrue result ↔ HasPlace phase (process_number process) run one.now }
{
    one.phase == phase
        && one.process.0 == process.0
        && one.number == run.number as u64
        && one.taken == run.taken as u64
}

impl<'w> RunsBeside<'w> {
    /// The next one of the steps that were tried, if it has the place of the next step of a process.
    pub(crate) fn tried_step(
        &self,
        phase: u32,
        process: ProcId,
        run: RunSoFar,
    ) -> Option<&'w TriedStep>
        ensures { MatchOption result (ComesLater self.now.tried.now self.now.next phase (process_number process) run)
            (λ one. ComesNext self.now.tried.now self.now.next phase (process_number process) run one.now) }
    {
        if self.next >= self.tried.len() {
            return None;
        }
        let one = &self.tried[self.next];
        if has_place(one, phase, process, run) {
            Some(one)
        } else {
            None
        }
    }

    /// The good machine's run of the number of a process's next run, if it begins where the process stands.
    fn run_to_begin(
        &self,
        table: &ProcessTable,
        phase: u32,
        process: ProcId,
        run: RunSoFar,
    ) -> Option<&'w RunEnd>
        requires kept { IsKept table.now }
        requires stands { IsSomewhere self.now table.now phase (process_number process) }
        requires run { run ≡ run_at phase self.now.runs.items (process_number process) }
        requires rests { run.taken ≡ 0 }
        ensures { MatchOption result (IsAloneHere self.now table.now phase (process_number process))
            (λ good. IsBesideHere self.now table.now phase (process_number process) run good.now) }
    {
        known_steps::known_steps_go_on();
        copy_laws::own_runs();
        copy_laws::shared_runs();
        own_counts::own_steps_count();
        table.has_code(process);
        let Some(good) = self.goods.run(phase, process, run.number) else {
            return None;
        };
        let alike = begins_alike(table, process, good);
        if alike { Some(good) } else { None }
    }

    /// The good machine's run that a process's present run goes as so far.
    fn run_to_follow(
        &self,
        table: &ProcessTable,
        phase: u32,
        process: ProcId,
        run: RunSoFar,
    ) -> Option<&'w RunEnd>
        requires kept { IsKept table.now }
        requires stands { IsSomewhere self.now table.now phase (process_number process) }
        requires run { run ≡ run_at phase self.now.runs.items (process_number process) }
        requires amid { 0 < run.taken }
        ensures { MatchOption result (IsAloneHere self.now table.now phase (process_number process))
            (λ good. IsBesideHere self.now table.now phase (process_number process) run good.now) }
    {
        known_steps::known_steps_go_on();
        copy_laws::own_runs();
        copy_laws::shared_runs();
        own_counts::own_steps_count();
        present_runs::present_runs_lead();
        table.has_code(process);
        if !run.follows {
            return None;
        }
        self.goods.run(phase, process, run.number)
    }

    /// The good machine's run beside the present run of a process, where that goes as it so far or is to begin as it.
    fn good_run(
        &self,
        table: &ProcessTable,
        phase: u32,
        process: ProcId,
        run: RunSoFar,
    ) -> Option<&'w RunEnd>
        requires kept { IsKept table.now }
        requires stands { IsSomewhere self.now table.now phase (process_number process) }
        requires run { run ≡ run_at phase self.now.runs.items (process_number process) }
        ensures { MatchOption result (IsAloneHere self.now table.now phase (process_number process))
            (λ good. IsBesideHere self.now table.now phase (process_number process) run good.now) }
    {
        if run.taken == 0 {
            return self.run_to_begin(table, phase, process, run);
        }
        self.run_to_follow(table, phase, process, run)
    }

    /// A process's next step, where its run goes as the good machine's and reads what that one reads.
    pub(crate) fn known_step(
        &self,
        table: &ProcessTable,
        nets: &NetState,
        phase: u32,
        process: ProcId,
        run: RunSoFar,
    ) -> Option<KnownStep<'w>>
        requires kept { IsKept table.now }
        requires objects { length (values_in nets.now) ≡ length (table_of table.now).design.objects }
        requires stands { IsSomewhere self.now table.now phase (process_number process) }
        requires run { run ≡ run_at phase self.now.runs.items (process_number process) }
        ensures { MatchOption result (IsOwnHere self.now table.now nets.now phase (process_number process))
            (λ known. IsKnownHere self.now table.now nets.now phase (process_number process) run known) }
    {
        known_steps::known_steps_go_on();
        copy_laws::own_runs();
        copy_laws::shared_runs();
        own_counts::own_steps_count();
        table.reads_are_there();
        let Some(good) = self.good_run(table, phase, process, run) else {
            return None;
        };
        known_step(good, run.taken as usize, nets)
    }
}
