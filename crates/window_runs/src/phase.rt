// The runs of one phase of a window.

ghost use Rattle.std.specs.Prelude.{ℕ, List, slice_get};
ghost use Rattle.std.specs.Option.{option_map};
ghost use Rattle.vf_base.specs.Base.{process_number};
ghost use Rattle.v_design.specs.Designs.{FlatDesign};
ghost use Rattle.v_design.specs.OwnSteps.{ProcessRun};
ghost use Rattle.window_runs.specs.OfPhase.{HasRunsOf, TellsGoodRun, TellsRuns};

use crate::index::RunIndex;
use process_code::RunEnd;
use vf_base::ProcId;

/// The runs of one phase, among the runs of a window with their index. The phases of the window are numbered from 1 on.
#[derive(Clone, Copy)]
pub struct PhaseRuns<'w> {
    pub index: &'w RunIndex,
    pub runs: &'w [RunEnd],
    pub phase: u32,
}

impl<'w> PhaseRuns<'w> {
    /// The run of a number, counted from 0, among those of a process in the phase; none where there are fewer.
    pub fn run(&self, process: ProcId, number: u32) -> Option<&'w RunEnd>
        requires { HasRunsOf (process_number process) self.now }
        ensures { (design : FlatDesign) (time : ℕ) (runs : ℕ → List ProcessRun) → TellsRuns design time runs self.now →
            TellsGoodRun design time (process_number process) (slice_get (runs (process_number process)) number) (option_map (λ run. run.now) result) }
    {
        self.index.run(self.runs, process, self.phase, number)
    }
}
