//! What the strobes of a window see of the good machine (slots by IEEE 1364-2001, clause 5).
//!
//! The faults of a shard are graded window by window beside the good machine's first run. What they share in a window is found once: `strobes_of` takes the good
//! machine's watched bits at the window's strobes out of the window, and tells to which time a fault is graded in it: to the window's last slot, to the plan's end
//! where the good first run is through, or to the last time before its race. Its main contract: the samples are those of the good machine's first run at the strobes
//! from one number on, in order, up to that time, and all later strobes come after it.
#![tactic(auto)]

mod bits;
mod ending;
mod rests;
mod samples;
mod slots;
mod strobes;

pub use bits::good_bits;
pub use rests::strobes_after;
pub use strobes::{WindowStrobes, strobes_of};
