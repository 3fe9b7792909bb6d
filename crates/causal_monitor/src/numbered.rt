// An access with its event.

ghost use Rattle.std.specs.Prelude.{◌≡◌};

use crate::noted::Noted;

/// An access of a phase with the number of its event; a held entry has none.
#[derive(Clone, Copy, Debug)]
pub(crate) struct Numbered {
    pub event: Option<u64>,
    pub noted: Noted,
}
