// A runner's processes, as far as what they have yet to write goes.

ghost use Rattle.std.specs.Prelude.{◌≡◌, map};
ghost use Rattle.block_events.specs.Runners.{IsWhole, state_of};
ghost use Rattle.lockstep_compare.specs.Compared.{writes_in};

use block_events::Runner;
use lockstep_compare::Processes;
use std::marker::Model;
use v_design::{Due, Update};
use vf_base::ProcId;

/// The processes of a runner whose parts are of one state, as far as what they have yet to write goes. Contracts see what each has yet to write, by number.
#[derive(Drop)]
pub struct RunnerWrites<'a, 'd> {
    runner: &'a Runner<'d>,
}

impl<'a, 'd> Model for RunnerWrites<'a, 'd> {
    ghost use Rattle.std.specs.Prelude.{List, map};
    ghost use Rattle.lockstep_index.specs.Writes.{OwnWrites};

    ghost Value = { List OwnWrites };

    ghost use Rattle.block_events.specs.Runners.{IsWhole, state_of};
    ghost use Rattle.lockstep_compare.specs.Compared.{writes_in};

    ghost view = { λ w. map writes_in (state_of w.runner.now).processes };

    ghost invariant = { λ w. IsWhole w.runner.now };
}

impl<'a, 'd> RunnerWrites<'a, 'd> {
    /// What the processes of a runner have yet to write.
    pub fn new(runner: &'a Runner<'d>) -> RunnerWrites<'a, 'd>
        requires { IsWhole runner.now }
        ensures { result ≡ map writes_in (state_of runner.now).processes }
    {
        RunnerWrites { runner }
    }
}

impl<'a, 'd> Processes for RunnerWrites<'a, 'd> {
    ghost use Rattle.std.specs.Prelude.{length};
    ghost use Rattle.runner_writes.specs.Each.{writes_at};

    ghost count = { length };

    ghost writes = { writes_at };

    fn later(&self, process: ProcId) -> &[Due] {
        self.runner.updates_of(process)
    }

    fn lane(&self, process: ProcId) -> &[Update] {
        self.runner.lane_of(process)
    }
}
