//! The generated design and plan on which the program tries itself: a number and a size tell both, byte for byte.
//!
//! The design has so many stages under one clock: each is a register of one bit and a gate over two registers, whose output the register takes
//! over at the clock's rising edge. What the gates are, what they read and what the registers begin with are draws of a linear congruential
//! generator. The plan watches the last registers and lists all faults. `design_text` and `plan_text` give the texts that `specs/Soak` defines
//! (the generator is this program's own; gates by IEEE 1364-2001, clause 7, the always construct by clause 9.9).
#![tactic(auto)]

mod design;
mod draws;
mod plan;

pub use design::design_text;
pub use draws::{Kind, Stage};
pub use plan::plan_text;
