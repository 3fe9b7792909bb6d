// The good machine's state as it is shown.

ghost use Rattle.std.specs.Prelude.{◌≡◌, ◌<◌, Some, length, slice_get};
ghost use Rattle.vf_base.specs.Base.{process_number};

use four_value::Vec4;
use lockstep_compare::Processes;
use lockstep_exchange::ShownState;
use moment_parts::Standing;
use process_code::ProcState;
use v_design::{Design, Due, Update, Values};
use vf_base::{ObjectId, ProcId};

/// The good machine's state at a moment, part by part.
#[derive(Clone, Copy)]
pub struct ShownMoment<'a> {
    pub design: &'a Design,
    pub values: &'a [Vec4],
    pub standing: &'a Standing,
}

/// What a block of the good machine did: the objects that it wrote, the processes that it stepped or whose waits it ended, and the process whose lane it stepped.
#[derive(Clone, Copy)]
pub struct ShownBlock<'a> {
    pub changed: &'a [ObjectId],
    pub acted: &'a [ProcId],
    pub lane: Option<ProcId>,
}

impl<'a> ShownMoment<'a> {
    /// Where a process stands.
    pub fn process_state(&self, process: ProcId) -> &ProcState
        requires { process_number process < length self.now.standing.now.states.items }
        ensures { slice_get self.now.standing.now.states.items (process_number process) ≡ Some result.now }
    {
        &self.standing.states[process.0 as usize]
    }
}

impl<'a> Values for ShownMoment<'a> {
    ghost values = { λ shown. shown.values.now };

    fn value(&self, object: ObjectId) -> Vec4 {
        self.values[object.0 as usize]
    }
}

impl<'a> ShownState for ShownMoment<'a> {
    ghost use Rattle.v_design.specs.PlainDesigns.{design_of};
    ghost use Rattle.moment_shown.specs.Shown.{Shows};

    ghost design = { λ shown. design_of shown.design.now };

    ghost shows = { Shows };

    fn value(&self, object: ObjectId) -> Vec4 {
        self.values[object.0 as usize]
    }

    fn state_of(&self, process: ProcId) -> &ProcState {
        &self.standing.states[process.0 as usize]
    }

    fn later(&self, process: ProcId) -> &[Due] {
        &self.standing.later[process.0 as usize]
    }

    fn lane(&self, process: ProcId) -> &[Update] {
        self.standing.lanes[process.0 as usize].left()
    }
}

impl<'a> Processes for ShownMoment<'a> {
    ghost use Rattle.std.specs.Prelude.{[], get_or, length, min};
    ghost use Rattle.moment_parts.specs.Lanes.{lanes_left, later_lists};

    ghost count = { λ shown. min (length shown.standing.now.later.items) (length shown.standing.now.lanes.items) };

    ghost writes = { λ shown process. record {
      later = get_or (later_lists shown.standing.now.later.items) process [];
      lane = get_or (lanes_left shown.standing.now.lanes.items) process [];
    } };

    fn later(&self, process: ProcId) -> &[Due] {
        &self.standing.later[process.0 as usize]
    }

    fn lane(&self, process: ProcId) -> &[Update] {
        self.standing.lanes[process.0 as usize].left()
    }
}
