//! What processes have yet to write isn't seen by events (events by IEEE 1364-2001, clause 5; nonblocking updates by clause 9.2.2).
//!
//! Pending updates are looked at by turns alone, and of the lanes an event looks at the one that steps. So states that differ in nothing but these take the same events of the first
//! order, and are alike behind them; a block of the one is a block of the other, and the same is told of both. So a block may be run in a state in which only some processes have the
//! updates that are theirs.
#![tactic(auto)]

mod laws;

pub use laws::writes_are_unseen;
