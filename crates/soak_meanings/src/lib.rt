//! That the generated texts are never refused (IEEE 1364-2001, clause 2 and annex A for a design's text, clause 12 for its hierarchy; the format of plans is this program's own).
//!
//! The text of each number and size says a design from its module `top`: it has tokens, these spell a unit within the levels that are read, and that unit has a flat
//! design. Over this design the text of the size's plan spells a plan. So neither text has a reason for which it could be refused. The function does nothing when it
//! runs; its contract is the law.
#![tactic(auto)]

ghost use Rattle.soak_meanings.specs.SoakMeanings.{TextsAreAccepted};

/// The text of each number and size says a design, and over it the text of the size's plan spells a plan.
pub fn texts_accepted()
    ensures { TextsAreAccepted }
{
    soak_unit::unit_spelled();
    soak_plan::plan_there();
}
