//! Whether a node reads more objects than a node may, by the declarations of the names in its text.
//!
//! `item_reads_over` tells it of the nodes of an item, and `connection_reads_over` of the assignments that the connections of an instance stand for
//! (`item_reads` and `connections_reads` of v_elab's `specs/ReadCounts`). Of the names that a node reads each counts once: a memory for its words
//! (IEEE 1364-2001, clause 3.10), a net or a variable for one object, anything else for none. The limit is this program's own choice. Into how many
//! pieces a net is cut isn't known before the walk has ended; then inputs are counted once more.
#![tactic(auto)]

mod blocks;
mod connections;
mod counts;
mod items;

pub use connections::connection_reads_over;
pub use items::item_reads_over;
