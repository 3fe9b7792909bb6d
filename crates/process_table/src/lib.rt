//! The processes of a machine: which are ready, which wait for what, their lanes of activated updates, and the turns that come next (IEEE
//! 1364-2001, clauses 5.3, 5.4 and 9).
//!
//! A `ProcessTable` stands for the processes of a machine's state. Its main contract: for every machine and state of the design with these
//! processes, a step and a step of a lane lead to the processes of the state that the definition gives, and the next turn is the state's. A table can also be put
//! into a given state: `clear`, and `put` for each process. At any moment `replace` lets one process stand at another state, with other updates pending and in its lane,
//! `put_updates` gives it other updates alone, `follow` lets it take a step that is known, without its code, and `wake_one` ends its wait; `stands_at` and `does_same` compare where a process stands.
#![tactic(auto)]

mod calls;
mod deed;
mod entries;
mod follow;
mod holds;
mod puts;
mod replace;
mod row;
mod rows;
mod set;
mod table;
mod turns;
mod waits;
mod wakes;

pub use deed::{Act, Stepped, TableTurn};
pub use table::ProcessTable;
