// What is wrong with drivers.

ghost use Rattle.std.specs.Prelude.{◌≡◌};

use thiserror::Error;
use vf_base::{NoMemory, Place};

/// Why it isn't so that each bit has one driver at most.
#[derive(Clone, Copy, Debug, PartialEq, Eq, Error)]
pub enum DriverFault {
    /// A bit of an object has two drivers: the place of the second one, and the bit, counted from the least significant as 0.
    #[error("a bit has two drivers")]
    TwoDrivers { place: Place, bit: u64 },
    #[error("out of memory")]
    NoMemory,
}

impl From<NoMemory> for DriverFault {
    ghost use Rattle.std.specs.Prelude.{◌≡◌};
    ghost use Rattle.driver_checks.specs.declared.fault.DriverFault.TheVariants.{NoMemory};

    ghost from_gives = { λ _ fault. fault ≡ NoMemory };

    fn from(_: NoMemory) -> Self {
        DriverFault::NoMemory
    }
}
