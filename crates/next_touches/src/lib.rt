//! Up to which moments the events of a window leave objects and processes alone, as it was found last (events by IEEE 1364-2001, clause 5).
//!
//! Many faults look ahead from one moment of a window after another, and their copies keep values of the same objects. A `NextTouches` remembers for each object, and for each process, a
//! stretch of moments in which all events of the window leave it alone, so that the window's indexes are searched once for each touch, and not once for each fault and block. Main contract:
//! `copy_limit` gives a moment up to which all events of a window from another on leave a copy of a fault alone, whatever was looked at before.
#![tactic(auto)]

mod limits;
mod search;
mod stretch;
mod table;
mod touches;

pub use touches::NextTouches;
