//! What strobes say of a fault: they judge it, or its samples are kept (strobes by the plan; slots and the order of events by IEEE 1364-2001, clause 5).
//!
//! A fault that is graded is ended by the first strobe with a hard detection. A fault whose full grade is asked for isn't: it goes on to its race or loop, and its samples that
//! differ from the good machine's are kept. `Strobed` is what the strobes said so far of a fault of either kind, and `Strobed::strobe` shows it one strobe more. All else of
//! the two gradings is one: a fault whose samples are kept is graded by the plan without its strobes (`plan_by`). The main contract, in the laws: the grading goes on from
//! strobe to strobe, or it ended by those strobes that may end it, and where the samples are kept they are then those of the fault's full grade by its definition.
//! The laws' functions do nothing when they run.
#![tactic(auto)]

mod laws;
mod strobed;

pub use laws::{
    full_grades_reach, strobed_faults_go_on, strobed_gradings_end, strobed_gradings_go_on,
};
pub use strobed::Strobed;
