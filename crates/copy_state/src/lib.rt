//! A faulty machine as its differences from the good one (what a state has, by IEEE 1364-2001, clauses 5 and 9).
//!
//! A `FaultCopy` keeps what a faulty machine has otherwise than the good one: values by object, states and pending updates by process, in ascending order.
//! Its main contract: `value`, `process` and `updates` read what is kept, and each call that changes it leaves just the old entries with one more or one less;
//! `set` keeps a value only where it isn't the good one. A few values are a list; more than 1,024 are a table by object.
//! With the code of each process `differences_of` gives the differences of the definitions for which a copy stands.
#![tactic(auto)]

mod by_object;
mod by_process;
mod copy;
mod entry;
mod few_values;
mod find;
mod value_table;

pub use by_process::ByProcess;
pub use copy::FaultCopy;
pub use entry::{Entry, HeldValue};
