//! A faulty machine in lockstep compared with the good one behind a block that each took for itself (blocks and slots by IEEE 1364-2001, clause 5).
//!
//! Of the objects and processes that either block changed, own values and own updates are kept just where they aren't the good machine's. `keep_values` does so for
//! objects, `keep_all_writes` for processes. `comparisons_tell` is the law that what is kept then is what the slot asks for to go on in lockstep. Main contract: of each
//! object or process that is named what is kept is the difference, and of each other one what was kept.
#![tactic(auto)]

mod laws;
mod values;
mod writes;

pub use laws::comparisons_tell;
pub use values::keep_values;
pub use writes::{Processes, keep_all_writes};
