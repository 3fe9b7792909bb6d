//! The text of a report: a line for each finding, with the spelling of its fault's site, and the totals; or the totals alone.
//!
//! `specs/Report` says which bytes they are (the format is this program's own).
#![tactic(auto)]

mod count;
mod line;
mod object;
mod report;

pub use line::write_line;
pub use report::{write_report, write_totals};
