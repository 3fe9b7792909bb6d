//! A phase of the first order cut into blocks (IEEE 1364-2001, clauses 5 and 9).
//!
//! A block goes from one moment at which no node has work and no process is in the midst of a run to the next such moment: it is a step of a lane with the node events
//! behind it, or a run of a process with the runs that are nested in it and all node events. A step that ends a run touches nothing, and the first order takes the least
//! process that is ready; so within a phase the events themselves tell where blocks begin: at each lane step, and at each step of a process that is greater than all that
//! took a step before. And a block that is run ends where the process stops whose step it began with. Each function here does nothing when it runs; its contract is the
//! law.
#![tactic(auto)]

ghost use Rattle.phase_blocks.specs.Blocks.{BlocksBegin, PhasesEndBetweenRuns, BlocksJoin, BlocksStand, BlocksFollow, RunsOfBlocks};
ghost use Rattle.phase_blocks.specs.Running.{RunsFillBlocks, LanesFillBlocks};

/// Where the blocks of a phase begin, that a phase ends between runs, that blocks are the same by themselves and behind others, that each event of a block has its cause
/// with it, and that the runs of a phase are those of its blocks.
pub fn blocks_are_told()
    ensures begin { BlocksBegin }
    ensures end { PhasesEndBetweenRuns }
    ensures join { BlocksJoin }
    ensures stand { BlocksStand }
    ensures follow { BlocksFollow }
    ensures runs { RunsOfBlocks }
{
    copy_laws::own_runs();
}

/// A block that is run event by event is over where the process stops whose step it began with, or behind a lane's step where no node has work.
pub fn blocks_are_run()
    ensures runs { RunsFillBlocks }
    ensures lanes { LanesFillBlocks }
{
    copy_laws::own_runs();
}
