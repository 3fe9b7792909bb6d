// The first slot of a run that isn't fine.

ghost use Rattle.std.specs.Prelude.{◌≡◌};
ghost use Rattle.v_design.specs.Plain.{grade_of};
ghost use Rattle.v_design.specs.Grades.{faulty_ending};
ghost use Rattle.fault_grade.specs.Stops.{stop_view, StopsSo};

use machine::SlotEnd;
use vf_base::{End, Pair, Side};

/// The first slot of a run that isn't fine: a race, at its own time, or a slot that is hyperactive, with its time in steps.
#[derive(Clone, Copy, PartialEq, Eq, Debug)]
pub enum Stop {
    Race(Pair),
    Loop(u64),
}

/// The slot of a time as a stop, where it isn't fine.
pub(crate) fn stop_at(time: u64, end: SlotEnd) -> Option<Stop>
    ensures { StopsSo time end result }
{
    match end {
        SlotEnd::Fine => None,
        SlotEnd::Race(pair) => Some(Stop::Race(pair)),
        SlotEnd::Hyper => Some(Stop::Loop(time)),
    }
}

/// How a stop of the faulty machine ends a grading.
pub fn end_by_faulty(stop: Stop) -> End
    ensures { Some (grade_of result) ≡ faulty_ending (stop_view stop).time (stop_view stop).outcome }
{
    match stop {
        Stop::Race(pair) => End::Race(Side::Faulty, pair),
        Stop::Loop(time) => End::Hyper(time),
    }
}
