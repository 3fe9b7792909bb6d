// Why there is no output.

use thiserror::Error;

/// Why there is no output on a design and a plan.
#[derive(Clone, Copy, Debug, PartialEq, Eq, Error)]
pub enum OutputFault {
    /// The good machine is hyperactive at this time, in steps, before a race of its own.
    #[error("the good machine loops at time {0}")]
    GoodLoop(u64),
    #[error("out of memory")]
    NoMemory,
}
