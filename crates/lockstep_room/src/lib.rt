//! A machine that comes into a state which is shown part by part (slots by IEEE 1364-2001, clause 5).
//!
//! `bring` lets some objects and processes of a runner be as they are shown. `follow` lets it follow another machine so over events that it doesn't take itself, by the
//! objects and processes that these changed; `stand` puts it into any state. Main contract: behind the latter two the runner's state is the one that is shown, and behind
//! `bring` it is in what is named, and as it was in all else.
#![tactic(auto)]

mod anew;
mod counts;
mod following;

pub use anew::stand;
pub use counts::Counts;
pub use following::{bring, follow};
