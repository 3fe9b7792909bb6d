// What is known of the slots of a faulty machine before they are run.

ghost use Rattle.std.specs.Prelude.{◌≡◌};
ghost use Rattle.window_grade.specs.Beside.{tried_at};

use good_runs::TriedStep;
use good_trace::WindowSlots;

/// The good machine's slots of a window, beside which a faulty machine is run; and the steps that the faulty machine took itself in lockstep in its slot of a time, in steps: none where it didn't go in lockstep.
#[derive(Clone, Copy)]
pub struct RunBeside<'w> {
    pub slots: WindowSlots<'w>,
    pub time: u64,
    pub tried: &'w [TriedStep],
}

impl<'w> RunBeside<'w> {
    /// The steps that were taken in the slot of a time.
    pub(crate) fn tried_at(&self, time: u64) -> &'w [TriedStep]
        ensures { result.now ≡ tried_at self.now time }
    {
        if time == self.time {
            return self.tried;
        }
        &self.tried[..0]
    }
}
