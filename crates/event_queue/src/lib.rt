//! The queue of turns: which processes and which updates come next, once no event of a phase is left (IEEE 1364-2001, clauses 5.3 and 5.4).
//!
//! A queue holds the processes that sleep or are postponed by `#0`, and the nonblocking updates of each process. Its main contract: what
//! `take_region` gives is the next turn. That is the postponed processes, else the updates that are due now, one lane for each process in the
//! order of its appends, else the processes that wake at the least later time. `replace` and `put_updates` let one process be held
//! otherwise, or with other updates, at a cost that grows with what is held of that process alone, but for look-ups.
#![tactic(auto)]

mod calendar;
mod held;
mod processes;
mod queue;
mod region;
mod removals;

pub use held::Holding;
pub use queue::Queue;
pub use region::Region;
