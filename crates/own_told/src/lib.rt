//! What a block of the faulty machine tells of its race and of causes, beside the good machine's (IEEE 1364-2001, clause 5).
//!
//! A runner tells all accesses of a block, and which processes stepped or were woken. So a test that no access passes that is told, no access of the block passes; and
//! where the good machine's block stepped or woke the same processes, and took a step of the same lane, later steps may have their causes in the one just where they may
//! in the other. Each function here does nothing when it runs; its contract is the law.
#![tactic(auto)]

ghost use Rattle.own_told.specs.Told.{ToldPassesNone, CausesAgree};

/// What no told access does, none of the block does.
pub fn accesses_are_told()
    ensures { ToldPassesNone }
{}

/// Later steps may have their causes in the one block just where they may in the other.
pub fn causes_agree()
    ensures { CausesAgree }
{
    block_changes::events_are_told();
}
