// Why a text has no tokens.

ghost use Rattle.std.specs.Prelude.{◌≡◌};

use std::alloc::{AllocError, AllocFailed};
use thiserror::Error;
use vf_base::{NoMemory, Place};

/// Why a text has no tokens. Of the first three the one that stands first in the text.
#[derive(Clone, Copy, PartialEq, Eq, Debug, Error)]
pub enum ScanFault {
    /// Here no token, no blank and no comment begins.
    #[error("nothing of the language begins here")]
    BadByte(Place),
    /// A number begins here that has no value: it has no digits, or is too large, or its size isn't from 1 to 128.
    #[error("the number has no value")]
    BadNumber(Place),
    /// A comment or a string begins here that has no end.
    #[error("a comment or a string has no end")]
    Unclosed(Place),
    /// The text has more than 1,048,576 bytes.
    #[error("the text is too long")]
    TooLong,
    /// There was no memory for the tokens.
    #[error("out of memory")]
    NoMemory,
}

impl From<AllocError> for ScanFault {
    ghost use Rattle.std.specs.Prelude.{◌≡◌};
    ghost use Rattle.v_scan.specs.declared.fault.ScanFault.TheVariants.{NoMemory};

    ghost from_gives = { λ _ fault. fault ≡ NoMemory };

    fn from(_: AllocError) -> Self {
        ScanFault::NoMemory
    }
}

impl<T: Drop> From<AllocFailed<T>> for ScanFault {
    ghost use Rattle.std.specs.Prelude.{◌≡◌};
    ghost use Rattle.v_scan.specs.declared.fault.ScanFault.TheVariants.{NoMemory};

    ghost from_gives = { λ _ fault. fault ≡ NoMemory };

    fn from(_: AllocFailed<T>) -> Self {
        ScanFault::NoMemory
    }
}

impl From<NoMemory> for ScanFault {
    ghost use Rattle.std.specs.Prelude.{◌≡◌};
    ghost use Rattle.v_scan.specs.declared.fault.ScanFault.TheVariants as faults;

    ghost from_gives = { λ _ fault. fault ≡ faults.NoMemory };

    fn from(_: NoMemory) -> Self {
        ScanFault::NoMemory
    }
}
