//! The lines of a run in a certificate, followed one by one (runs by IEEE 1364-2001, clause 5; the format is this program's own).
//!
//! A `CertRun` stands before the first line of a run of a machine, good or under a fault, with a bound. `follow` takes a line: `slot 0` begins the run, then each
//! line goes on where the run stands. `is_through` tells whether the run is through to its bound. `follow_section` takes the lines of a text one after the
//! other, from the start of a run up to the first that isn't followed or is no line of a run, and tells what the run shows of what is asked of it.
//!
//! Main contract: each call answers exactly whether the definition of a valid certificate follows the line there (`follow_section`: how many lines it
//! follows), and where it does the run stands where the definition stands; what is shown is what the run's moves show: the watched bits at each strobe up
//! to the bound, or the first pair of accesses that a claimed race may mean. `runs_tell`: the counts tell which line of the certificate fails first.
#![tactic(auto)]

mod asked;
mod asked_run;
mod follow;
mod law;
mod lines;
mod samples;
mod search;
mod section;
mod turns;

pub use asked::{Asked, Shown};
pub use law::runs_tell;
pub use section::{Section, follow_section};
