// What is wrong with ports and drivers.

ghost use Rattle.std.specs.Prelude.{◌≡◌};

use std::alloc::{AllocError, AllocFailed};
use thiserror::Error;
use vf_base::Place;

/// Why ports aren't joined, or a net isn't cut.
#[derive(Clone, Copy, Debug, PartialEq, Eq, Error)]
pub enum PortFault {
    /// A port is connected that an earlier connection names too: the place of the later one.
    #[error("the port is connected twice")]
    PortMismatch(Place),
    /// A bit has two drivers: the place of the first driver that overlaps an earlier one, and the least bit of both.
    #[error("a bit has two drivers")]
    TwoDrivers(Place, u32),
    #[error("out of memory")]
    NoMemory,
}

impl From<AllocError> for PortFault {
    ghost use Rattle.std.specs.Prelude.{◌≡◌};
    ghost use Rattle.v_ports.specs.declared.fault.PortFault.TheVariants.{NoMemory};

    ghost from_gives = { λ _ fault. fault ≡ NoMemory };

    fn from(_: AllocError) -> Self {
        PortFault::NoMemory
    }
}

impl<T: Drop> From<AllocFailed<T>> for PortFault {
    ghost use Rattle.std.specs.Prelude.{◌≡◌};
    ghost use Rattle.v_ports.specs.declared.fault.PortFault.TheVariants.{NoMemory};

    ghost from_gives = { λ _ fault. fault ≡ NoMemory };

    fn from(_: AllocFailed<T>) -> Self {
        PortFault::NoMemory
    }
}
