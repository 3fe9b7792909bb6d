//! Which variables drive the objects of a walk, and whether a bit has two drivers.
//!
//! `list_driving` puts the variables that drive under the outermost names of their objects, in the order of the walk: those that are no block's target.
//! `one_driver` answers the first bit of a walk that has two drivers, with the place of the second one, as the definition has it (`specs` of `v_elab`,
//! Drivers; IEEE 1364-2001, clause 6.1; that a bit has one driver at most is this program's own choice).
#![tactic(auto)]

mod check;
mod driving;
mod fault;
mod overlap;
mod second;

pub use check::one_driver;
pub use driving::list_driving;
pub use fault::DriverFault;
