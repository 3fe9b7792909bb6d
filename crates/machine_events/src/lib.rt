//! The single events of a machine, on the parts that they change: the values and the nodes, the processes, and the record of the present slot (IEEE 1364-2001,
//! clause 5).
//!
//! Whoever runs a machine chooses the order of events. Main contract: `work_node`, `step_process` and `step_lane` lead from wherever the parts stood in a slot, by
//! whatever events, to the state to which the event's definition leads, with the event recorded in the present phase. `node_alone`, `step_alone` and `lane_alone` do
//! the same without a record, from whichever state the values, the nodes and the processes are of, and tell the event; `follow_alone` does it of a step that is known, without the process's code. `begin_phase` begins the next phase after the
//! turn that `slot_turn` tells.
#![tactic(auto)]

mod lanes;
mod nodes;
mod notes;
mod phases;
mod steps;
mod told;
mod write;

pub use lanes::{lane_alone, step_lane};
pub use nodes::{node_alone, work_node};
pub use phases::{begin_phase, later_time, slot_turn};
pub use steps::{StepAlone, finish_step, follow_alone, step_alone, step_process};
pub use told::Told;
