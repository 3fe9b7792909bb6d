//! The unit of the generated design: its syntax tree (IEEE 1364-2001, annex A).
//!
//! `specs/SoakUnits` has the unit of a number and a size: one module without ports with its clock, the registers of all stages, and for each stage a wire, a gate and a
//! process, each at its place in the text. `soak_unit` proves that the text spells it, `soak_flat` that it has a flat design. Here it is said what its stages keep. The
//! function does nothing when it runs; its contract is the law.
#![tactic(auto)]

ghost use Rattle.soak_tree.specs.Stages.{StagesFit};

/// The stages of each number and size are as many as the size says, and their numbers are written out.
pub fn stages_fit()
    ensures { StagesFit }
{}
