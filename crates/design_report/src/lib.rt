//! The texts on a flat design alone: how large it is, and the faults that can be listed, each with its class.
//!
//! `check_text` gives the numbers of its objects, nodes and processes. `faults_text` gives a line for each site at 0 and at 1, with the place of the
//! first fault of its class (gates by IEEE 1364-2001, clause 7). `specs/Texts` says which bytes they are (the format is this program's own); each text is the
//! only one of its design.
#![tactic(auto)]

mod check;
mod faults;

pub use check::check_text;
pub use faults::faults_text;
