//! The certificate of a fault: the line of its grade, and the first runs of the good and the faulty machine that show it, slot by slot, as far as the grade
//! speaks of them (first runs, slots and phases by IEEE 1364-2001, clause 5; the format is this program's own).
//!
//! Its main contract: `certify` answers the text that `cert_laws` defines as the certificate of the fault's grade, or the good machine's loop, exactly where
//! the good machine is hyperactive before a race of its own. A run is written as it goes: nothing of it is kept but its text.
#![tactic(auto)]

mod cert;
mod lines;
mod run;

pub use cert::{Certified, certify};
