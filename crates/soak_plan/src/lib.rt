//! That the generated plan is read (the format of plans is this program's own; the sites by IEEE 1364-2001, clause 7).
//!
//! Over the design of each number and size the text of the generated plan spells a plan: its lines have their forms, each watched name is that of a register, and
//! neither the strobes, the watched bits nor the listed faults are too many. The function does nothing when it runs; its contract is the law.
#![tactic(auto)]

ghost use Rattle.soak_plan.specs.SoakPlans.{PlansAreRead};

/// The unit of each number and size has a flat design, over which the text of the size's plan spells a plan.
pub fn plan_there()
    ensures { PlansAreRead }
{}
