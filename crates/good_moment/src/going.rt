// To the beginning of a slot of a window.

ghost use Rattle.std.specs.Prelude.{◌+◌, ◌<◌, OnOk};
ghost use Rattle.passed_blocks.specs.moment_laws.Places.{IsAtSlot};
ghost use Rattle.passed_blocks.specs.moment_laws.Shown.{IsWhole};

use crate::moment::GoodMoment;
use crate::place::MomentPlace;
use crate::rules::keeps_rules;
use good_trace::{Setup, TraceWindow};
use moment_parts::{awake, begin_count, clear_lanes, put_later, put_states, put_values};
use v_design::World;
use vf_base::NoMemory;

impl<N: World> GoodMoment<N> {
    /// Goes to the beginning of a slot of a window, from wherever it is. It takes a look at each object and each process.
    ///
    /// # Errors
    ///
    /// Want of memory. The moment is not to be used again then.
    pub fn go_to(
        &mut self,
        setup: &Setup<'_, N>,
        window: &TraceWindow<N>,
        slot: u32,
    ) -> Result<(), NoMemory>
        requires whole { IsWhole N.design self.old }
        requires slot { window.now.before + slot < window.now.through }
        ensures { OnOk result (IsAtSlot N.design N.plan window.now.before window.now.through slot self.new) }
    {
        // What the window tells of the state before the slot shows its beginning.
        passed_blocks::slots_are_shown();
        keeps_rules(setup);
        // A window has few slots, so that the number of the next one fits.
        let through = window.ends();
        window.rests_before(slot);
        window.rests_before(slot + 1);
        let moment = window.first_moment(slot);
        let time = window.slot_time(slot);
        put_values(window, moment, &mut self.values);
        put_states(window, slot, &mut self.standing.states)?;
        awake(&mut self.standing.states, time);
        put_later(self.alloc, window, slot, &mut self.standing.later)?;
        clear_lanes(&mut self.standing.lanes);
        begin_count(&mut self.standing.ran);
        self.passed.clear();
        self.time = time;
        self.place = MomentPlace {
            before: window.begins(),
            through,
            slot,
            phase: window.phases_before(slot),
            moment,
            runs: 0,
        };
        Ok(())
    }
}
