// The accesses of a phase by their places, and whether two of them conflict.

ghost use Rattle.std.specs.Prelude.{◌≡◌, ◌<◌, length};
ghost use Rattle.vf_base.specs.Base.{reported_access};
ghost use Rattle.v_design.specs.Logs.{conflict};
ghost use Rattle.v_design.specs.Grades.{reported};
ghost use Rattle.causal_monitor.specs.Links.{access_at};
ghost use Rattle.causal_monitor.specs.Index.{accesses_in, IsIndexOf};

use crate::conflict::conflict;
use crate::index::CheckIndex;
use crate::log::PhaseLog;
use vf_base::Access;

impl CheckIndex {
    /// How many accesses the phase has, held entries and settlings among them.
    pub fn access_count(&self) -> usize
        ensures { result ≡ length (accesses_in self.now) }
    {
        self.index.accesses.len()
    }

    /// The access at a place, in the order of the phase's accesses, as a report names it.
    pub fn access(&self, place: usize) -> Access
        requires { place < length (accesses_in self.now) }
        ensures { reported_access result ≡ reported (access_at (accesses_in self.now) place) }
    {
        self.index.accesses[place].noted.access
    }

    /// Whether the accesses at two places conflict, by the phase's log, which is the one that this index was filled from.
    pub fn conflicts(&self, log: &PhaseLog, first: usize, second: usize) -> bool
        requires indexed { IsIndexOf log.now.log self.now }
        requires first { first < length (accesses_in self.now) }
        requires second { second < length (accesses_in self.now) }
        ensures { result ≡ conflict log.now.log (access_at (accesses_in self.now) first) (access_at (accesses_in self.now) second) }
    {
        conflict(
            log,
            &self.index.jumps,
            &self.index.accesses[first],
            &self.index.accesses[second],
        )
    }
}
