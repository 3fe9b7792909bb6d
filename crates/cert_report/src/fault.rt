// Why there is no certificate.

use thiserror::Error;

/// Why there is no certificate of the fault at a place of a plan's list.
#[derive(Clone, Copy, Debug, PartialEq, Eq, Error)]
pub enum CertifyFault {
    /// The plan lists fewer faults than this place, from 1.
    #[error("no fault {0}")]
    NoFault(u32),
    /// The good machine is hyperactive at this time, in steps, before a race of its own.
    #[error("the good machine loops at time {0}")]
    GoodLoop(u64),
    #[error("out of memory")]
    NoMemory,
}
