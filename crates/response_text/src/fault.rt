// Why a response isn't read.

ghost use Rattle.std.specs.Prelude.{◌≡◌};

use thiserror::Error;
use vf_base::NoMemory;

/// Why a response isn't read: the number of the first line at fault, from 1, or the whole text.
#[derive(Clone, Copy, Debug, PartialEq, Eq, Error)]
pub enum ResponseFault {
    /// The line isn't that of the next strobe, or it is missing.
    #[error("line {0} is bad")]
    BadLine(u32),
    /// The text has more bytes than a response may have.
    #[error("the response is too long")]
    TooLong,
    #[error("out of memory")]
    NoMemory,
}

impl From<NoMemory> for ResponseFault {
    ghost use Rattle.std.specs.Prelude.{◌≡◌};
    ghost use Rattle.response_text.specs.declared.fault.ResponseFault.TheVariants.{NoMemory};

    ghost from_gives = { λ _ fault. fault ≡ NoMemory };

    fn from(_: NoMemory) -> Self {
        ResponseFault::NoMemory
    }
}
