//! The ends of process runs block by block (IEEE 1364-2001, clauses 5 and 9).
//!
//! A window's run ends stand in one list, in the order in which the runs end. At a moment between runs of a phase no run is in the midst, so the list is parted there: the
//! runs that end before it are those of the events before it, and the others those of the events behind. So each block of a phase has a slice of the list, which tells where
//! each process stands after its last run in the block, and what its runs there appended. Each function here does nothing when it runs; its contract is the law.
#![tactic(auto)]

ghost use Rattle.boundary_ends.specs.BlockEnds.{PhaseEndsStand, EndsPartBetweenRuns, EndsTellProcesses};
ghost use Rattle.boundary_ends.specs.Enders.{EventsTellEnders};

/// The run ends of a phase are those between two fronts of a window's run ends, are parted at each moment between runs, and tell of each process what its runs left it
/// doing and what they appended.
pub fn run_ends_part()
    ensures stand { PhaseEndsStand }
    ensures part { EndsPartBetweenRuns }
    ensures tell { EndsTellProcesses }
{
    copy_laws::own_runs();
    phase_blocks::blocks_are_told();
    window_runs::ends_go_on();
}

/// Up to a moment between runs the events alone tell whose runs end, and in which order: so how many end in a block is counted without any state.
pub fn events_tell_enders()
    ensures { EventsTellEnders }
{
    boundary_laws::steps_tell_ends();
}
