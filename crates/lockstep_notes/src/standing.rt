// Where the processes of a machine stand in a state.

use process_code::ProcState;
use vf_base::ProcId;

/// Where the processes of a design's machine stand in a state.
pub trait Standing {
    ghost use Rattle.std.specs.Prelude.{IfSome};
    ghost use Rattle.vf_base.specs.Base.{process_number};
    ghost use Rattle.v_design.specs.Designs.{FlatDesign};
    ghost use Rattle.v_design.specs.States.{State, process_at};
    ghost use Rattle.good_trace.specs.RunsKept.{Stands};

    /// The design.
    ghost design: { Self → FlatDesign };

    /// Whether a state is the one that is shown.
    ghost shows: { Self → State → Type 0 };

    /// Where a process stands: in each code of the process it is a state that does what the process does. None where there is no such process.
    fn state_of(&self, process: ProcId) -> Option<&ProcState>
        ensures { IfSome result (λ own. (state : State) → shows self.now state → Stands (design self.now) (process_number process) (process_at state (process_number process)).activity own.now) };
}
