//! The parts of a design in the order of the walk through its hierarchy, before names are joined into objects.
//!
//! A part is a net or a variable with its hierarchical name, a memory, a continuous assignment, a gate, an `initial` or an `always`, or that an instance
//! begins (IEEE 1364-2001, clause 12.1 for the hierarchy, clause 12.4 for names). Contracts see a part as the plain one of `v_elab`, by `part_of` of
//! `specs/PartViews`. All parts of an instance share its path and its names; the bodies of processes stay in the source tree.
#![tactic(auto)]

mod behaviour;
mod bits;
mod part;
mod range;
mod signal;

pub use behaviour::{NodeDrives, NodeFunction, ProcessPart, WalkedNode};
pub use bits::DrivenBits;
pub use part::{Drive, Part, ValueIn, WalkedProcess};
pub use range::DeclaredRange;
pub use signal::{Joining, Signal, WalkedMemory};
