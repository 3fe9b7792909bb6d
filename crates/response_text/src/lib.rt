//! Responses, as a tester observed them: the samples that a text spells over a plan, or its first line at fault.
//!
//! A response is one line for each strobe of the plan, in order: the strobe's time in decimal, one space, and one byte for each watched bit, `0`, `1`, or `-` where the bit
//! wasn't observed, which is read as x. `specs/Reading` says what a text means, `specs/Spelled` what is answered; the formats are this program's own.
#![tactic(auto)]

mod bits;
mod fault;
mod limits;
mod read;
mod sample;

pub use fault::ResponseFault;
pub use limits::MAX_RESPONSE_BYTES;
pub use read::read_response;
