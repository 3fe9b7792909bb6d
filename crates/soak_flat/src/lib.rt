//! That the generated design is accepted (IEEE 1364-2001, clause 7 for gates, clause 9 for processes, clause 12 for the hierarchy).
//!
//! The unit of each number and size has a flat design: its names are each declared once and meant as they are used, no net has two drivers, no gate reads a net, and
//! nothing passes a limit. The function does nothing when it runs; its contract is the law.
#![tactic(auto)]

ghost use Rattle.soak_flat.specs.SoakDesigns.{UnitsHaveDesigns};

/// The unit of each number and size has a flat design.
pub fn flat_there()
    ensures { UnitsHaveDesigns }
{}
