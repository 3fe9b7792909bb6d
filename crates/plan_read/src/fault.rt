// Why a plan isn't read.

ghost use Rattle.std.specs.Prelude.{◌≡◌};

use thiserror::Error;
use vf_base::NoMemory;

/// Why a plan isn't read: the number of the first line at fault, from 1, or the whole text.
#[derive(Clone, Copy, Debug, PartialEq, Eq, Error)]
pub enum PlanFault {
    /// The line is of no form, or breaks a number's limit.
    #[error("line {0} is bad")]
    BadLine(u32),
    /// The line's name is nothing to watch, or no site.
    #[error("line {0} has an unknown name")]
    UnknownSite(u32),
    /// With this line there are too many strobes, watched bits or faults.
    #[error("line {0} is one too many")]
    TooMany(u32),
    /// The text has more bytes than a plan may have.
    #[error("the plan is too long")]
    TooLong,
    #[error("out of memory")]
    NoMemory,
}

impl From<NoMemory> for PlanFault {
    ghost use Rattle.std.specs.Prelude.{◌≡◌};
    ghost use Rattle.plan_read.specs.declared.fault.PlanFault.TheVariants.{NoMemory};

    ghost from_gives = { λ _ fault. fault ≡ NoMemory };

    fn from(_: NoMemory) -> Self {
        PlanFault::NoMemory
    }
}
