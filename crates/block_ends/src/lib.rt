//! The process runs that end in a block of a phase (IEEE 1364-2001, clauses 5 and 9).
//!
//! A block that begins with a step of a process is over where that process stops: so its run is the last that ends in the block, and the process ends no other run there.
//! In a block that begins with a step of a lane no run ends. So the ends of the runs of a phase, in their order, can be told block by block: those of a block go up to the
//! first one of the process that began it. `ends_of_blocks` is the law; the function does nothing when it runs.
#![tactic(auto)]

ghost use Rattle.block_ends.specs.Ends.{EndsOfBlocks};

/// The run with whose step a block begins is the last to end in it; where a lane's step begins it none ends.
pub fn ends_of_blocks()
    ensures { EndsOfBlocks }
{
    phase_blocks::blocks_are_told();
    phase_blocks::blocks_are_run();
}
