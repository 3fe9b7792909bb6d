//! That the generated design's text spells its unit (IEEE 1364-2001, clause 2 for tokens, annex A for what they spell).
//!
//! The text of each number and size has tokens, and these spell the unit that `soak_tree` defines, so neither its tokens nor what they spell are ever refused. The
//! function does nothing when it runs; its contract is the law.
#![tactic(auto)]

ghost use Rattle.soak_unit.specs.SpelledUnits.{TextsSpellUnits};

/// The text of each number and size has tokens, and these spell the unit, within the levels that are read.
pub fn unit_spelled()
    ensures { TextsSpellUnits }
{}
