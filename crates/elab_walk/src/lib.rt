//! The walk through the hierarchy from its top.
//!
//! `walked_from` answers the parts of a design in the order of the walk, or the first reason why there are none: items go in text order, and an
//! instance stands for its connections and all items of its module (IEEE 1364-2001, clause 12.1). At each item its first fault is answered, else a
//! node that reads too many objects, else its parts are put behind the others, and then each count is held against its limit (`walked_from` of
//! v_elab's `specs/Walk`; the limits, and which reason comes first, are this program's own choice). `Modules` finds a module by the hash of its name; `second_module` finds the first module
//! whose name another module before it has (clause 3.12: a module's name stands for one module).
#![tactic(auto)]

mod counts;
mod fault;
mod hierarchy;
mod items;
mod modules;
mod site;
mod walked;

pub use fault::WalkFault;
pub use hierarchy::walked_from;
pub use modules::{Modules, second_module};
