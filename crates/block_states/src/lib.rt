//! Where a block leaves the processes (IEEE 1364-2001, clauses 5 and 9).
//!
//! Whoever goes through the good machine's run block by block knows where each process stands by little: one that took a step in a block stands where the last of its runs
//! left it, and isn't ready; any other stands where it stood, or is ready to go on where its wait has ended. The function does nothing when it runs; its contract is the
//! law.
#![tactic(auto)]

ghost use Rattle.block_states.specs.Leaving.{BlocksLeave};

/// What each process does behind a block.
pub fn blocks_leave()
    ensures { BlocksLeave }
{
    copy_laws::own_runs();
    between_slots::runs_lead();
}
