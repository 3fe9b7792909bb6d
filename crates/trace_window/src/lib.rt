//! What stands in a window of the good first run: the value of each object before each event (events and their accesses by IEEE 1364-2001, clause 5).
//!
//! All events of a window are numbered through; the number of an event is its moment. An `EventList` gathers what the events of slot after slot write and touch, and
//! who acts in them, from the slots' logs. `Changes` finds by binary search what an object holds before a moment: what the last write before it left, else what the object held at
//! the beginning, and when it is written next. What the list has of an object's reads and writes, a node's evaluations and a process's steps is made for an index. The laws
//! that these are the values, the accesses and the events of the definitions stand in `specs/ValueLaws`, `specs/TouchLaws` and `specs/ActedLaws`.
#![tactic(auto)]

mod acted;
mod change;
mod changes;
mod list;
mod occurrences;
mod sizes;

pub use change::Change;
pub use changes::Changes;
pub use list::EventList;
pub use sizes::Sizes;
