//! The one unit that tokens spell, or the first token at which none goes on (IEEE 1364-2001, annex A).
//!
//! `parse` gives the unit that the tokens spell, which is the only one, where it has at most 256 levels. Else it gives the place of the first
//! token at which no unit goes on, or none of so few levels does, and whether something stands there that is left out of the language
//! (`specs/Verdict`, `specs/Refusals`).
//!
//! `specs/Spelling` says by recursion on the tree which tokens spell an item, a module and a unit, `specs/Heights` how many levels it has.
//! `specs/Items` has the readers, and each call does what the reader of its name does. `specs/ItemExact` and `specs/ItemReads` show that they are
//! exact and that each spelled unit is read; `specs/Judged` takes from this what reading a unit says of the tokens.
#![tactic(auto)]

mod connections;
mod declarations;
mod drivers;
mod fault;
mod headers;
mod items;
mod modules;
mod text;

pub use fault::ParseFault;
pub use text::parse;
