// Why a walk has no parts.

ghost use Rattle.std.specs.Prelude.{◌≡◌, false, Some, None, MatchResult};
ghost use Rattle.elab_walk.specs.WalkFaults.{reads_fault, refusal_in};

use module_scope::NameFault;
use std::alloc::{AllocError, AllocFailed};
use thiserror::Error;
use v_elab::What;
use v_names::Found;
use vf_base::NoMemory;

/// Why the walk through a hierarchy has no parts.
#[derive(Clone, Copy, Debug, PartialEq, Eq, Error)]
pub enum WalkFault {
    /// What is wrong first, in the order of the walk: of one item by its place in the text, and at one place by its reason.
    #[error("a name, a constant, a size or a connection is wrong")]
    Found(Found),
    /// What there is more of than the limit.
    #[error("the design is too large")]
    TooMany(What),
    /// A node reads more objects than a node may, by the declarations of the names in its text.
    #[error("a node reads too many objects")]
    TooManyInputs,
    #[error("out of memory")]
    NoMemory,
}

impl From<NoMemory> for WalkFault {
    ghost use Rattle.std.specs.Prelude.{◌≡◌};
    ghost use Rattle.elab_walk.specs.declared.fault.WalkFault.TheVariants.{NoMemory as none};

    ghost from_gives = { λ _ fault. fault ≡ none };

    fn from(_: NoMemory) -> Self {
        WalkFault::NoMemory
    }
}

impl From<AllocError> for WalkFault {
    ghost use Rattle.std.specs.Prelude.{◌≡◌};
    ghost use Rattle.elab_walk.specs.declared.fault.WalkFault.TheVariants.{NoMemory as none};

    ghost from_gives = { λ _ fault. fault ≡ none };

    fn from(_: AllocError) -> Self {
        WalkFault::NoMemory
    }
}

impl<T: Drop> From<AllocFailed<T>> for WalkFault {
    ghost use Rattle.std.specs.Prelude.{◌≡◌};
    ghost use Rattle.elab_walk.specs.declared.fault.WalkFault.TheVariants.{NoMemory as none};

    ghost from_gives = { λ _ fault. fault ≡ none };

    fn from(_: AllocFailed<T>) -> Self {
        WalkFault::NoMemory
    }
}

impl From<NameFault> for WalkFault {
    ghost use Rattle.std.specs.Prelude.{◌≡◌};
    ghost use Rattle.elab_walk.specs.NameFaults.{of_name_fault};

    ghost from_gives = { λ wrong fault. fault ≡ of_name_fault wrong };

    fn from(wrong: NameFault) -> Self {
        match wrong {
            NameFault::Found(found) => WalkFault::Found(found),
            NameFault::NoMemory => WalkFault::NoMemory,
        }
    }
}

/// Refuses what is found to be wrong, if something is.
pub fn refuse(found: Option<Found>) -> Result<(), WalkFault>
    ensures { MatchResult result (λ done. found ≡ None) (λ fault. refusal_in found ≡ Some fault) }
{
    match found {
        None => Ok(()),
        Some(found) => Err(WalkFault::Found(found)),
    }
}

/// Refuses a node that reads too many objects, if there is one.
pub fn refuse_reads(over: bool) -> Result<(), WalkFault>
    ensures { MatchResult result (λ done. over ≡ false) (λ fault. reads_fault over ≡ Some fault) }
{
    if over {
        return Err(WalkFault::TooManyInputs);
    }
    Ok(())
}
