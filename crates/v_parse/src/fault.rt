// Why tokens spell no unit.

ghost use Rattle.std.specs.Prelude.{◌≡◌};

use std::alloc::{AllocError, AllocFailed};
use thiserror::Error;
use vf_base::{NoMemory, Place};

/// Why tokens spell no unit of at most 256 levels. The place is that of the first token at which none goes on, or that behind the last token.
#[derive(Clone, Copy, PartialEq, Eq, Debug, Error)]
pub enum ParseFault {
    /// No unit begins with the tokens through this one, or ends behind the last one.
    #[error("no text of the language goes on here")]
    Unexpected(Place),
    /// The same at a word that is refused, or at a system name where a statement or an operand could stand.
    #[error("this is left out of the language")]
    Unsupported(Place),
    /// Some unit begins with the tokens through this one, but none of at most 256 levels does.
    #[error("the text has too many levels")]
    TooDeep(Place),
    /// There was no memory for the tree.
    #[error("out of memory")]
    NoMemory,
}

impl From<AllocError> for ParseFault {
    ghost use Rattle.std.specs.Prelude.{◌≡◌};
    ghost use Rattle.v_parse.specs.declared.fault.ParseFault.TheVariants.{NoMemory};

    ghost from_gives = { λ _ fault. fault ≡ NoMemory };

    fn from(_: AllocError) -> Self {
        ParseFault::NoMemory
    }
}

impl<T: Drop> From<AllocFailed<T>> for ParseFault {
    ghost use Rattle.std.specs.Prelude.{◌≡◌};
    ghost use Rattle.v_parse.specs.declared.fault.ParseFault.TheVariants.{NoMemory};

    ghost from_gives = { λ _ fault. fault ≡ NoMemory };

    fn from(_: AllocFailed<T>) -> Self {
        ParseFault::NoMemory
    }
}

impl From<NoMemory> for ParseFault {
    ghost use Rattle.std.specs.Prelude.{◌≡◌};
    ghost use Rattle.v_parse.specs.declared.fault.ParseFault.TheVariants as faults;

    ghost from_gives = { λ _ fault. fault ≡ faults.NoMemory };

    fn from(_: NoMemory) -> Self {
        ParseFault::NoMemory
    }
}
