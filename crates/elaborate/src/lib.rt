//! The flat design that a text says, or the first reason why it says none (IEEE 1364-2001, clause 2 and annex A for the text, clause 12 for the hierarchy).
//!
//! `read_design` reads a text: its tokens, the unit that they spell, its flat design from the top module. A text means one design for a top module and a mode, or one
//! fault (`specs/Meanings`): that of its tokens before that of its unit, and that before what is wrong with the design. `elaborate` answers for a unit the design
//! that `specs/Flat` of `v_elab` defines, exactly where it does, and else the reason that comes first: no module of the name, a second module of one name, the first
//! fault of the walk through the hierarchy, too many nodes or processes, two drivers of one bit, too many objects, a node with too many inputs, a loop. The design
//! keeps all rules of flat designs, since the unit is one of a text.
#![tactic(auto)]

mod convert;
mod design;
mod design_fault;
mod elements;
mod fault;
mod read;
mod tables;

pub use design::elaborate;
pub use design_fault::DesignFault;
pub use fault::ElabFault;
pub use read::read_design;
