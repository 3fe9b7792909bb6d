// Why reading stops.

ghost use Rattle.std.specs.Prelude.{◌≡◌};

use crate::lexeme::Lexeme;
use std::alloc::{AllocError, AllocFailed};
use vf_base::NoMemory;

/// Why reading stops, with the lexemes from the one at which it does.
#[derive(Drop)]
pub enum Stop<'t> {
    Memory,
    /// No text goes on with the next token, or ends here.
    Wrong(&'t [Lexeme<'t>]),
    /// Only texts of more levels go on with the next token.
    Deep(&'t [Lexeme<'t>]),
}

impl From<AllocError> for Stop<'_> {
    ghost use Rattle.std.specs.Prelude.{◌≡◌};
    ghost use Rattle.v_readers.specs.declared.stop.Stop.TheVariants.{Memory};

    ghost from_gives = { λ _ stop. stop ≡ Memory };

    fn from(_: AllocError) -> Self {
        Stop::Memory
    }
}

impl<T: Drop> From<AllocFailed<T>> for Stop<'_> {
    ghost use Rattle.std.specs.Prelude.{◌≡◌};
    ghost use Rattle.v_readers.specs.declared.stop.Stop.TheVariants.{Memory};

    ghost from_gives = { λ _ stop. stop ≡ Memory };

    fn from(_: AllocFailed<T>) -> Self {
        Stop::Memory
    }
}

impl From<NoMemory> for Stop<'_> {
    ghost use Rattle.std.specs.Prelude.{◌≡◌};
    ghost use Rattle.v_readers.specs.declared.stop.Stop.TheVariants.{Memory};

    ghost from_gives = { λ _ stop. stop ≡ Memory };

    fn from(_: NoMemory) -> Self {
        Stop::Memory
    }
}
