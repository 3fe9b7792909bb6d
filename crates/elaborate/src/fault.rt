// Why a unit has no flat design.

ghost use Rattle.std.specs.Prelude.{◌≡◌};

use thiserror::Error;
use v_elab::What;
use vf_base::{NoMemory, Place};

/// Why a unit has no flat design.
#[derive(Clone, Copy, Debug, PartialEq, Eq, Error)]
pub enum ElabFault {
    #[error("a name isn't declared")]
    Unknown(Place),
    #[error("a name is declared twice")]
    Twice(Place),
    #[error("not a constant")]
    NotConstant(Place),
    #[error("bad width")]
    TooWide(Place),
    #[error("bad connection")]
    PortMismatch(Place),
    #[error("wrong kind of name")]
    WrongKind(Place),
    #[error("too deep")]
    TooDeep(Place),
    #[error("two drivers of one bit")]
    TwoDrivers(Place, u64),
    #[error("no module of that name")]
    NoTop,
    #[error("too many")]
    TooMany(What, u64),
    #[error("loop")]
    Loop(Place),
    #[error("out of memory")]
    NoMemory,
}

impl From<NoMemory> for ElabFault {
    ghost use Rattle.std.specs.Prelude.{◌≡◌};
    ghost use Rattle.elaborate.specs.declared.fault.ElabFault.TheVariants as faults;

    ghost from_gives = { λ _ fault. fault ≡ faults.NoMemory };

    fn from(_: NoMemory) -> Self {
        ElabFault::NoMemory
    }
}
