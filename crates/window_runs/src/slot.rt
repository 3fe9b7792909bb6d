// The runs of a slot of a window, phase by phase.

ghost use Rattle.std.specs.Prelude.{ℕ, List, slice_get};
ghost use Rattle.std.specs.Option.{option_map};
ghost use Rattle.vf_base.specs.Base.{process_number};
ghost use Rattle.v_design.specs.Designs.{FlatDesign, good_machine};
ghost use Rattle.v_design.specs.Grades.{Phase};
ghost use Rattle.window_runs.specs.OfPhase.{TellsGoodRun};
ghost use Rattle.window_runs.specs.OfSlot.{HasRunsOfSlot, TellsSlot, run_in};

use crate::index::RunIndex;
use crate::phase::PhaseRuns;
use process_code::RunEnd;
use vf_base::ProcId;

/// The runs of one slot of the good machine, among the runs of a window with their index: so many phases of the window come before those of the slot, and it has so many. It
/// has none where the good machine has no slot.
#[derive(Clone, Copy)]
pub struct SlotRuns<'w> {
    pub index: &'w RunIndex,
    pub runs: &'w [RunEnd],
    pub before: u32,
    pub phases: u32,
}

impl<'w> SlotRuns<'w> {
    /// The run of a number, counted from 0, among those of a process in the phase of a number, counted from 0 too; none where there are fewer.
    pub fn run(&self, phase: u32, process: ProcId, number: u32) -> Option<&'w RunEnd>
        requires { HasRunsOfSlot (process_number process) self.now }
        ensures { (design : FlatDesign) (time : ℕ) (phases : List Phase) → TellsSlot design time phases self.now →
            TellsGoodRun design time (process_number process) (run_in (good_machine design) (slice_get phases phase) (process_number process) number) (option_map (λ run. run.now) result) }
    {
        if phase >= self.phases {
            return None;
        }
        let own = PhaseRuns {
            index: self.index,
            runs: self.runs,
            phase: self.before + phase + 1,
        };
        own.run(process, number)
    }
}
