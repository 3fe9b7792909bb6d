//! The search for a claimed race in a phase that has ended (phases by IEEE 1364-2001, clause 5; the texts of accesses are those of a report).
//!
//! Main contract: `claimed_pair` answers the first pair of accesses of the phase's log, in the log's order, that conflict and print as two given texts, the
//! earlier one as the first; and no pair where there is none. Only the accesses that print so are compared with each other.
#![tactic(auto)]

mod pair;
mod places;
mod printed;
mod search;

pub use search::claimed_pair;
