// The slots of a window, for a machine that runs beside them.

ghost use Rattle.std.specs.Prelude.{List, find, nat_eq};
ghost use Rattle.v_design.specs.Designs.{FlatDesign, good_machine};
ghost use Rattle.v_design.specs.OwnSteps.{phases_if};
ghost use Rattle.v_design.specs.Runs.{FirstSlot};
ghost use Rattle.window_runs.specs.OfSlot.{TellsSlot};
ghost use Rattle.good_trace.specs.BesideSlots.{HasSlots, TellsSlots};

use crate::pushed::SlotBeginning;
use process_code::RunEnd;
use window_runs::{RunIndex, SlotRuns};

/// The slots of a window: their times, in steps; where the phases of each begin, and behind these where another one's would; and the ends of their runs with the index of these.
#[derive(Clone, Copy)]
pub struct WindowSlots<'w> {
    pub(crate) times: &'w [u64],
    pub(crate) beginnings: &'w [SlotBeginning],
    pub(crate) index: &'w RunIndex,
    pub(crate) runs: &'w [RunEnd],
}

impl<'w> WindowSlots<'w> {
    /// The runs of the slot of a time, in steps; none where the window has no slot then.
    pub fn at(&self, time: u64) -> SlotRuns<'w>
        requires { HasSlots self.now }
        ensures { (design : FlatDesign) (slots : List FirstSlot) → TellsSlots design slots self.now →
            TellsSlot design time (phases_if (good_machine design) (find (λ (other : FirstSlot). nat_eq other.begins.time time) slots)) result }
    {
        'slots: for slot in 0..self.times.len() {
            if self.times[slot] == time {
                let before = self.beginnings[slot].phases;
                let behind = self.beginnings[slot + 1].phases;
                return SlotRuns {
                    index: self.index,
                    runs: self.runs,
                    before,
                    phases: behind - before,
                };
            }
        }
        SlotRuns {
            index: self.index,
            runs: self.runs,
            before: 0,
            phases: 0,
        }
    }
}
