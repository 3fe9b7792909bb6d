//! The listed faults cut into shards: which of them are simulated, in what pieces, and how what was found of those tells the end of each listed one.
//!
//! Two faults are of one class where a gate gives the same with either held (gates by IEEE 1364-2001, clause 7), and the first listed fault of a class
//! stands for it. `cut_faults` takes these representatives, in list order, in shards of 32, the last one with what is left. `Shards::in_list_order` takes
//! the findings on them, in any order and any of them more than once, and answers the finding on each listed fault, in list order. Its main contract:
//! where the findings are the grades of their faults and none of a representative is missing, the answer is the grade of each listed fault.
#![tactic(auto)]

mod cut;
mod law;
mod shards;

pub use cut::cut_faults;
pub use law::{shards_cover, shards_suffice};
pub use shards::Shards;
