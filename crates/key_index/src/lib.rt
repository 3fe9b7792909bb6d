//! Where keys stand in a list, found by their hash: the first place of a key, and after each place the next one of the same key.
//!
//! `KeyIndex::new` makes the index of a list of keys in one pass; `first` and `next` answer the place that `specs/Places` means, and so go from place
//! to place of one key without a look at the others. `specs/Walks` says what such a way gives of a list whose elements have the keys. It says nothing of
//! the language: names of nets and of instances (IEEE 1364-2001, clause 12.4) are keys here.
#![tactic(auto)]

mod grouped;
mod index;

pub use grouped::{Grouped, Keyed};
pub use index::KeyIndex;
