// The search for a claimed race in the phases of a run.

ghost use Rattle.std.specs.Prelude.{OnOk};
ghost use Rattle.cert_replay.specs.Kept.{IsAtPhaseEnd};
ghost use Rattle.cert_runs.specs.Searches.{LooksAt};

use crate::asked::Asked;
use cert_replay::Replaying;
use std::alloc::Global;
use vf_base::{NoMemory, Pair};

/// What is asked of a run, and where that is a race, what has been found of it in the phases that have ended.
#[derive(Drop)]
pub(crate) struct Search<'a> {
    pub(crate) alloc: Global,
    pub(crate) asked: Asked<'a>,
    pub(crate) found: Option<Pair>,
}

impl<'a> Search<'a> {
    /// Looks into a phase that has ended, where a race is claimed.
    pub(crate) fn look(&mut self, replaying: &Replaying<'_>) -> Result<(), NoMemory>
        requires { IsAtPhaseEnd replaying.now }
        ensures { OnOk result (LooksAt replaying.now self.old self.new) }
    {
        match self.asked {
            Asked::Samples { .. } => Ok(()),
            Asked::Conflict {
                time,
                phase,
                first,
                second,
            } => {
                let found = replaying.look(self.alloc, time, phase, first, second, self.found)?;
                self.found = found;
                Ok(())
            }
            Asked::Nothing => Ok(()),
        }
    }
}
