// A runner cleared, so that any state may be put into it.

ghost use Rattle.std.specs.Prelude.{◌≡◌, ℕ};
ghost use Rattle.v_design.specs.States.{process_at};
ghost use Rattle.process_table.specs.Puts.{MayStand};
ghost use Rattle.block_events.specs.Runners.{IsWhole, cleared_state, machine_of, state_of};

use crate::runner::Runner;

impl<'d> Runner<'d> {
    /// At a time, in steps, no node has work, and each process is done, with no update pending and nothing in its lane. The values stay. What was held is let go of; its
    /// memory is used again.
    pub fn clear(&mut self, time: u64)
        requires { IsWhole self.old }
        ensures machine { machine_of self.new ≡ machine_of self.old }
        ensures state { state_of self.new ≡ cleared_state (machine_of self.old).design time (state_of self.old).values }
        ensures whole { IsWhole self.new }
    {
        self.table.clear(time);
        self.nets.unmark_all();
    }

    /// Each process stands where it may be put.
    ///
    /// It does nothing when it runs.
    pub fn processes_may_stand(&self)
        requires { IsWhole self.now }
        ensures { (number : ℕ) → MayStand (machine_of self.now).design (state_of self.now).time number (process_at (state_of self.now) number) }
    {
        self.table.processes_may_stand();
    }
}
