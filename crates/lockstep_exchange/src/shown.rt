// A state that is shown part by part.

use four_value::Vec4;
use process_code::ProcState;
use v_design::{Due, Update};
use vf_base::{ObjectId, ProcId};

/// A state of a design's machine that can be looked up part by part.
pub trait ShownState {
    ghost use Rattle.std.specs.Prelude.{◌≡◌, map};
    ghost use Rattle.vf_base.specs.Base.{object_number, process_number};
    ghost use Rattle.v_design.specs.Assignments.{value_at};
    ghost use Rattle.v_design.specs.Designs.{FlatDesign};
    ghost use Rattle.v_design.specs.Plain.{due_of, update_of};
    ghost use Rattle.v_design.specs.States.{State, process_at};
    ghost use Rattle.good_trace.specs.RunsKept.{Stands};
    ghost use Rattle.lockstep_exchange.specs.Shown.{ShowsObject, ShowsProcess};

    /// The design.
    ghost design: { Self → FlatDesign };

    /// Whether a state is the one that is shown.
    ghost shows: { Self → State → Type 0 };

    /// The value of an object.
    fn value(&self, object: ObjectId) -> Vec4
        requires { ShowsObject (shows self.now) (object_number object) }
        ensures { (state : State) → shows self.now state → result ≡ value_at state.values (object_number object) };

    /// Where a process stands: in each code of the process it is a state that does what the process does.
    fn state_of(&self, process: ProcId) -> &ProcState
        requires { ShowsProcess (shows self.now) (process_number process) }
        ensures { (state : State) → shows self.now state → Stands (design self.now) (process_number process) (process_at state (process_number process)).activity result.now };

    /// The updates of a process that are pending, in the order of their appends.
    fn later(&self, process: ProcId) -> &[Due]
        requires { ShowsProcess (shows self.now) (process_number process) }
        ensures { (state : State) → shows self.now state → map due_of result.now ≡ (process_at state (process_number process)).later };

    /// The updates in a process's lane, in the order in which they are written.
    fn lane(&self, process: ProcId) -> &[Update]
        requires { ShowsProcess (shows self.now) (process_number process) }
        ensures { (state : State) → shows self.now state → map update_of result.now ≡ (process_at state (process_number process)).lane };
}
