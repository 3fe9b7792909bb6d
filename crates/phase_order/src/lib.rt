//! The phases of a slot of the first order (IEEE 1364-2001, clause 5).
//!
//! A slot that begins as the laws ask and isn't hyperactive goes phase by phase: each phase takes the events of the first order until none is possible, a turn within
//! the slot leads to the next one, and behind the last no such turn comes. So whoever has a slot's phases knows of each stretch of their events that the first order
//! takes it. Each function here does nothing when it runs; its contract is the law.
#![tactic(auto)]

ghost use Rattle.phase_order.specs.Order.{PhasesFollow, FirstEventsSplit};

/// The phases of a slot that isn't hyperactive are those of the first order, and a phase's events may be cut anywhere.
pub fn phases_follow()
    ensures phases { PhasesFollow }
    ensures split { FirstEventsSplit }
{
    order_laws::slots();
}
