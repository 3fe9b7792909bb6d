//! What stands of a process at the moments between runs of a phase (IEEE 1364-2001, clauses 5 and 9).
//!
//! At each such moment a process that took a step in the phase isn't ready, and does what its last run left it doing: nothing has ended its wait since. Any other does what
//! it did when the phase began, or its wait has ended; and one that is ready begins a block of its own later in the phase. It has pending what it had and what its runs
//! appended, and its lane is without the updates that were taken. Which steps end a run is told by the events alone, and which event ended a wait by the causes of later
//! steps. Each function here does nothing when it runs; its contract is the law.
#![tactic(auto)]

ghost use Rattle.boundary_laws.specs.Boundaries.{ProcessAtBoundary, LesserRest};
ghost use Rattle.boundary_laws.specs.Ends.{StepsTellEnds};
ghost use Rattle.boundary_laws.specs.Pending.{RunsAppend, LanesShorten};
ghost use Rattle.boundary_laws.specs.Readiness.{ReadyBeginBlocks, LanesAreTaken};
ghost use Rattle.boundary_laws.specs.Wakes.{CausesTellWakes};

/// Between runs a process that took a step in the phase isn't ready, nor is a lesser one, and it does what its last run left it doing; any other does what it did at
/// first, or its wait has ended.
pub fn processes_between_runs()
    ensures boundary { ProcessAtBoundary }
    ensures lesser { LesserRest }
{
    copy_laws::own_runs();
    between_slots::runs_lead();
}

/// After the events of a phase, or the first of them, a process has pending what it had and what its runs appended, and its lane is without the updates that were taken.
pub fn pending_is_told()
    ensures later { RunsAppend }
    ensures lanes { LanesShorten }
{
    copy_laws::shared_runs();
}

/// Between runs those processes are ready of which a block comes in the phase before anything ends their wait, and a lane has as many updates as it takes steps in the rest
/// of the phase.
pub fn later_blocks_tell()
    ensures ready { ReadyBeginBlocks }
    ensures lanes { LanesAreTaken }
{
    copy_laws::own_runs();
}

/// Up to a moment between runs the events alone tell which steps end a run: each but those whose process takes a further step before a greater process does.
pub fn steps_tell_ends()
    ensures { StepsTellEnds }
{
    copy_laws::own_runs();
}

/// The cause of a step, where it isn't a step of the same process, is the event that ended its wait; and each wait that an event ends is told so, by a step that comes later.
pub fn causes_tell_wakes()
    ensures { CausesTellWakes }
{}
