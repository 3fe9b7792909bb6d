// The runs of a slot so far.

ghost use Rattle.std.specs.Prelude.{◌≡◌, ◌+◌, ◌<◌, ◌^◌, length, slice_set, IfOk};
ghost use Rattle.vf_base.specs.Base.{process_number};
ghost use Rattle.runs_beside.specs.Runs.{HasBegun, no_run, run_at, behind_step};

use crate::run::RunSoFar;
use good_runs::TriedStep;
use std::alloc::Global;
use vf_base::{NoMemory, ProcId};
use window_runs::SlotRuns;

/// The runs of each process of a machine in the present phase of a slot, the good machine's runs of its slot of that time, and the steps that were tried in the slot before, of which so many have come again.
#[derive(Drop)]
pub struct RunsBeside<'w> {
    pub(crate) goods: SlotRuns<'w>,
    pub(crate) tried: &'w [TriedStep],
    pub(crate) next: usize,
    pub(crate) runs: Vec<RunSoFar>,
}

/// No run of a process in a phase.
fn no_run(phase: u32) -> RunSoFar
    ensures { result ≡ no_run phase }
{
    RunSoFar {
        phase,
        number: 0,
        taken: 0,
        follows: false,
    }
}

impl<'w> RunsBeside<'w> {
    /// A slot begins, of a machine with so many processes.
    ///
    /// # Errors
    ///
    /// Want of memory.
    pub fn new(
        alloc: Global,
        processes: usize,
        goods: SlotRuns<'w>,
        tried: &'w [TriedStep],
    ) -> Result<RunsBeside<'w>, NoMemory>
        ensures { IfOk result (λ made. HasBegun processes goods.entry tried.now made) }
    {
        let mut runs: Vec<RunSoFar> = Vec::new(alloc);
        runs.resize(processes, no_run(0))?;
        Ok(RunsBeside {
            goods,
            tried,
            next: 0,
            runs,
        })
    }

    /// The present run of a process in the phase of a number.
    pub(crate) fn run_of(&self, phase: u32, process: ProcId) -> RunSoFar
        requires { process_number process < length self.now.runs.items }
        ensures { result ≡ run_at phase self.now.runs.items (process_number process) }
    {
        let run = self.runs[process.0 as usize];
        if run.phase == phase {
            run
        } else {
            no_run(phase)
        }
    }

    /// A process took a step of its present run, after which it is ready or not.
    pub(crate) fn note(&mut self, process: ProcId, run: RunSoFar, ready: bool, follows: bool)
        requires process { process_number process < length self.old.runs.items }
        requires number { run.number + 1 < 2 ^ 32 }
        requires taken { run.taken + 1 < 2 ^ 32 }
        ensures runs { self.new.runs.items ≡ slice_set self.old.runs.items (process_number process) (behind_step run ready follows) }
        ensures goods { self.new.goods ≡ self.old.goods }
        ensures tried { self.new.tried.now ≡ self.old.tried.now }
        ensures next { self.new.next ≡ self.old.next }
    {
        self.runs[process.0 as usize] = if ready {
            RunSoFar {
                phase: run.phase,
                number: run.number,
                taken: run.taken + 1,
                follows,
            }
        } else {
            RunSoFar {
                phase: run.phase,
                number: run.number + 1,
                taken: 0,
                follows: false,
            }
        };
    }
}
