//! What tells the causes of a phase's events as they happen (IEEE 1364-2001, clause 5: an event is caused by the one that activated it).
//!
//! The cause of a process's step is its last step, or the event that ended its wait; that of a lane's step is the lane's last step; that of a node's event is the
//! latest change of one of the node's inputs. `Causes` keeps for each process and each object the number of the latest such event, so
//! that an event is noted in a time that doesn't grow with the phase, and a phase begins without clearing a table: a number below that
//! of the phase's first event stands for none.
//!
//! Contracts say, for every machine and all events so far, that each answer is the cause of the definition, and that noting an event leads to what tells the
//! causes after one event more. Who notes an event tells which objects it changed and whose waits it ended.
#![tactic(auto)]

mod causes;
mod marks;

pub use causes::{Causes, Writer};
