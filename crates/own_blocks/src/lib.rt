//! A block that a runner tells is one of the definition (blocks of the first order of IEEE 1364-2001, clause 5).
//!
//! Who runs a block event by event keeps whether each process is in the midst of a run by the step that it took last; the definition has it by the runs of the phase. Both
//! are one, so what ends between runs by the one does by the other. `run_blocks_are_whole` does nothing when it runs; its contract is the law.
#![tactic(auto)]

ghost use Rattle.own_blocks.specs.Whole.{RunBlocksAreWhole};

/// A block by its steps is a block by its runs.
pub fn run_blocks_are_whole()
    ensures { RunBlocksAreWhole }
{
    copy_laws::own_runs();
}
