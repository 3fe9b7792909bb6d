//! The next slot of a window that may touch a copy (slots by IEEE 1364-2001, clause 5).
//!
//! A copy keeps what of a faulty machine isn't the good one's. `next_touched` finds by a few searches in a window's indexes, and not event by event, how many slots of
//! the good machine from one on leave a copy alone: none of their events reads or writes an object that differs, or the fault's variable, or evaluates the fault's node
//! or one that reads such an object. Over these slots the copy may be passed (`quiet_index`). Where a copy keeps the state or the updates of a process no slot is found.
//! `values_limit` and `site_limit` tell the same of moments, for who looks within a slot.
//! `searches_begin` is the law of what the search asks: a site of the design, and a copy of objects of the design.
#![tactic(auto)]

mod laws;
mod limits;
mod skip;

pub use laws::searches_begin;
pub use limits::{earlier, site_limit, values_limit};
pub use skip::next_touched;
