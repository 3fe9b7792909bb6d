//! One block of a faulty machine in lockstep: it is run, and put back (blocks and slots by IEEE 1364-2001, clause 5).
//!
//! A runner in the good machine's state becomes a faulty machine with what is kept of it, and runs its next block: `run_faulty`. Of the updates that are kept it has those of the
//! processes alone that act in the good machine's block: no event sees the others, and the block is the faulty machine's all the same (`unseen_writes`). It goes beside the good machine's runs of the
//! phase: a step of a run that goes as one of these isn't taken, but brought on as that was, and each step that is taken is kept, and ticks. Behind the block, which was
//! compared with the good machine's, `put_back` lets what either block changed, and the values that are kept behind them, be as they were in the good machine before the block: so many
//! faults may take their blocks one after the other. Main contract: the block that was run is the faulty machine's next one, and behind `put_back` the runner is the good machine, in the
//! state before the block.
#![tactic(auto)]

mod back;
mod run;

pub use back::put_back;
pub use block_compare::{
    Counts, LockstepCopy, Runner, ShownBlock, ShownMoment, begin_slot, compare_block,
    comparisons_tell, follow, kept_ends, lanes_tell_turns, stand, turn_writes,
};
pub use block_runner::{Beside, GoodPhase};
pub use run::run_faulty;
