// A wait that an event ended.

ghost use Rattle.std.specs.Prelude.{◌≡◌};

use moment_slices::AtMoment;
use vf_base::ProcId;

/// The event of a moment of a window ended the wait of a process.
#[derive(Clone, Copy, PartialEq, Eq, Debug)]
pub struct Wake {
    pub moment: u32,
    pub process: ProcId,
}

impl AtMoment for Wake {
    ghost moment_of = { λ wake. wake.moment };

    fn moment(&self) -> u32 {
        self.moment
    }
}
