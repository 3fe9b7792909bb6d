//! A machine into which the states of faulty machines are put, one after the other, and from which they are taken as copies (slots by IEEE 1364-2001, clause 5).
//!
//! Between two windows of the good first run a fault is kept as a copy: the differences of its faulty machine's state from the good one's. A room is a machine of the
//! design that serves all faults. `enter` puts it into the state for which a copy stands before a slot of a window, and `leave` keeps in a copy what of the room's
//! state isn't the good machine's there. The main contract: after `enter` the room is the faulty machine, and stands in that state between two slots, so that it runs
//! on as that machine does; after `leave` the copy stands for the room's state, keeps nothing that is equal, and may be entered again.
#![tactic(auto)]

mod counts;
mod entering;
mod leaving;

pub use entering::enter;
pub use leaving::leave;
pub use machine::Machine;
