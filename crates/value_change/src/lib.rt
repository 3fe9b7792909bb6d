//! Changes of the values of objects: what one or several at once do to the processes that wait (IEEE 1364-2001, clause 9.7).
//!
//! Who writes an object, or updates the nets of a node, tells the changes. The laws of `ChangeLaws` say that this is enough: the processes that a write or an
//! update of nets makes ready, and the accesses of the waits that it ends, are those that the changes alone determine.
#![tactic(auto)]

mod change;

pub use change::Change;
