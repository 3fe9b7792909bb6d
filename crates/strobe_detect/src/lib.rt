//! The verdict of the strobes: at which strobe a fault is found, from the watched bits of the good and the faulty machine.
//!
//! A grader is shown the values of both machines at one strobe after the other. Its main contract: its verdict is that of the samples that it was
//! shown. The first strobe at which some watched bit is 0 or 1 in the good machine and opposite in the faulty one detects the fault; else the
//! first at which the faulty bit is x or z says that it is possibly detected; else it is undetected. Bits are those of IEEE 1364-2001, clause 3.1.
#![tactic(auto)]

mod compare;
mod grader;
mod hard;
mod kept;

pub use compare::{Shown, is_hard, is_possible};
pub use grader::{Grade, Grader, first_of};
pub use hard::Hard;
pub use kept::{is_detected, shows_kept, watched_bits};
