//! Grades a fault of a plan over a design, by its good and its faulty machine (slots and the order of events by IEEE 1364-2001, clause 5).
//!
//! `run_good` runs the good machine once and keeps what the strobes see of it before its first race. `grade_fault` runs one faulty machine beside that, from
//! strobe to strobe: what comes first decides, the good machine's race, else the faulty machine's race or loop, else a hard strobe; at the end the verdict.
//! Its main contract: the end is the fault's grade by the definition; and `run_good` answers a loop exactly where the good machine's first run is hyperactive
//! before a race of its own. Both say by how many process steps their counter rises: those of the slots that they run, to the plan's end or to what ends the run before.
#![tactic(auto)]

mod bench;
mod fault;
mod good;
mod run;
mod stop;

pub use bench::Bench;
pub use fault::{advance_to, grade_fault, last_time};
pub use good::{GoodRun, GoodSamples, run_good};
pub use run::{advance, empty_log};
pub use stop::{Stop, end_by_faulty};
