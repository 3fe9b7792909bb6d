//! A faulty machine's state as its differences from the good one's (what a state has, by IEEE 1364-2001, clauses 5 and 9).
//!
//! Of two states that stand between slots, the good machine's and a faulty one's, a copy keeps just what isn't the good one's: the values of objects (`FaultCopy::set`),
//! where processes stand (`keep_state`), and what nonblocking updates they have pending (`keep_updates`). `differences_stand` is the law that a copy which was gone
//! through so for each object and each process stands for the faulty state beside the good one, and keeps nothing that is equal. `one_state` is the law that two
//! states for which one copy stands beside one good state are one.
#![tactic(auto)]

mod laws;
mod processes;
mod updates;

pub use laws::{differences_stand, one_state};
pub use processes::keep_state;
pub use updates::keep_updates;
