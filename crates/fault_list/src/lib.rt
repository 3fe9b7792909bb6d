//! The sites of a design's stuck-at faults: the list of all of them, how they are spelled, and which faults of a gate are equivalent.
//!
//! A site is a bit of a variable, a bit of a node's output, or an input terminal of a gate (gates by IEEE 1364-2001, clause 7). `all_sites` gives
//! them in one order; a name that `write_site` writes is read by `site_of` as its site; `classes` tells of each fault the first listed one
//! that the same tests find.
#![tactic(auto)]

mod ascending;
mod class;
mod compare;
mod count;
mod key;
mod law;
mod list;
mod name;
mod spelled;

pub use class::{classes, representative};
pub use count::count_sites;
pub use law::{names_read, one_class, one_full_class};
pub use list::{all_sites, width_of};
pub use name::{append, append_number, write_site};
pub use spelled::{bit_spelled, joined_place, node_spelled, piece_bit, site_of};
