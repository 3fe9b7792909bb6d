// How many cases passed and failed.

ghost use Rattle.std.specs.Prelude.{◌≡◌, IsTrue};

/// The numbers of cases that passed and that failed.
#[derive(Clone, Copy, Debug, Default, PartialEq, Eq)]
pub struct Tally {
    pub passed: u64,
    pub failed: u64,
}

impl Tally {
    /// Counts one case. None failed only where this one passed and none had failed.
    pub fn note(&mut self, passed: bool)
        ensures { self.new.failed ≡ 0 → (IsTrue passed × (self.old.failed ≡ 0)) }
    {
        if passed {
            self.passed = self.passed.saturating_add(1);
        } else {
            self.failed = self.failed.saturating_add(1);
        }
    }

    /// Counts the cases of another tally. None failed only where none failed in either.
    pub fn add(&mut self, other: Tally)
        ensures { self.new.failed ≡ 0 → ((self.old.failed ≡ 0) × (other.failed ≡ 0)) }
    {
        self.passed = self.passed.saturating_add(other.passed);
        self.failed = self.failed.saturating_add(other.failed);
    }
}
