//! The whole program but for its outside: the call `vfault` grades a test of a Verilog design, which stuck-at faults it finds and at which strobe.
//!
//! Where `vfault` answers `Done`, the sink gained the output of the form that the words ask for, over what the shelf holds; each line of a report, a dictionary,
//! a diagnosis or a list of picked strobes, the second line of a certificate that is written, and that of one whose audit says yes, says what holds in every
//! legal order of events (IEEE 1364-2001, clause 5). Each other status comes exactly where `specs/Answers` has it, or with its cause outside, as
//! `specs/Outside` says. `counters` makes the counters that the call wants: one for the calling thread, and one for each worker.
#![tactic(auto)]

mod audit;
mod certificate;
mod counting;
mod diagnosis;
mod dictionary;
mod grade;
mod law;
mod make;
mod output;
mod plan;
mod purpose;
mod soak;
mod source;
mod top;

pub use counting::{COUNTERS, counters};
pub use top::vfault;
pub use vf_status::{Status, code, line, read_design};
