//! What a block of events changes (IEEE 1364-2001, clause 5).
//!
//! Whoever runs a block tells which objects it wrote, which processes stepped, themselves or their lanes, and whose waits ended. Nothing else has changed but nodes; and
//! these are the processes whose later steps may have their causes in the block. A good state with some differences is one state. Each function here does nothing when it
//! runs; its contract is the law.
#![tactic(auto)]

ghost use Rattle.block_changes.specs.Changes.{OnlyWokenChange, EventsChangeParts, CausesAreTold, WithinIsOne};

/// What events change, and what may have its cause in them.
pub fn events_are_told()
    ensures woken { OnlyWokenChange }
    ensures parts { EventsChangeParts }
    ensures causes { CausesAreTold }
{
    copy_laws::moves();
}

/// A good state and differences from it are one state.
pub fn differences_are_one()
    ensures { WithinIsOne }
{}
