//! For each of the numbers from 0 on, its moments in ascending order (nothing of the language).
//!
//! A moment is the number of an event of a window. `WindowIndex::build` makes the index of a list of occurrences, each a number at a moment, by one
//! counting sort: it takes time for each occurrence and each number once. `refill` makes that of another list in the memory of the old one. `moments`
//! reads the moments of a number; `first_at_or_after` and `last_before` find one of them by binary search.
#![tactic(auto)]

mod index;
mod occurrence;
mod search;
mod sort;

pub use index::WindowIndex;
pub use occurrence::Occurrence;
