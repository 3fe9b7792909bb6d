//! The text of certificates: what each of its lines says, and how each is written (the format is this program's own).
//!
//! A certificate is lines: `vfault cert 1`; the line of a fault as in a report; `good` and the lines of a run; `faulty` and the lines of a run; `end`. A line of
//! a run is `slot T`, `phase K`, `p P C` (steps of a process) or `u P C` (nonblocking updates of a process), in the slots and phases of IEEE 1364-2001,
//! clause 5. Parts of a line stand between single blanks, and numbers are in decimal without leading zeros.
//!
//! Its main contracts: `read_claim` and `read_cert_line` say of a line just what `cert_laws` says that it means, `prints_access` whether an access prints as
//! it is claimed, `append_cert_line` writes just the text of a line, and `certificates_are_read` says that the text of each certificate is read as a valid one
//! of its own fault and claim.
#![tactic(auto)]

mod access;
mod claim;
mod law;
mod line;
mod number;
mod object;
mod parts;
mod printed;
mod write;

pub use access::ClaimedAccess;
pub use claim::{Claim, ClaimedRace, read_claim};
pub use law::certificates_are_read;
pub use line::{CertLine, RunLine, is_head, read_cert_line};
pub use printed::prints_access;
pub use write::{append_cert_line, append_head, append_run_line};
