//! The statuses with which the program ends, each with its number and its line.
//!
//! `specs/Status` says which number and line a status has (both are this program's own): the line of a refusal names the place in the design, or the line of the
//! plan or the response, and what is wrong there.
#![tactic(auto)]

mod message;
mod status;

pub use elaborate::{DesignFault, ElabFault, read_design};
pub use message::line;
pub use status::{Refusal, Status, Which, code};
