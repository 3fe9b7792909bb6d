// The turn to the next phase of a slot.

ghost use Rattle.std.specs.Prelude.{◌≡◌, List, [], ◌∷◌, OnOk};
ghost use Rattle.v_design.specs.Grades.{Phase};
ghost use Rattle.passed_blocks.specs.lockstep_slots.Places.{Place};
ghost use Rattle.passed_blocks.specs.moment_laws.Passing.{HasTurn, TakesTurn};
ghost use Rattle.passed_blocks.specs.moment_laws.Places.{IsInWindow, IsShownAt};

use crate::moment::GoodMoment;
use good_trace::{Setup, TraceWindow};
use moment_parts::{activate_all, begin_count, resume, some_postponed};
use v_design::World;
use vf_base::NoMemory;

impl<N: World> GoodMoment<N> {
    /// Takes the turn to the next phase of the slot, where the present one has ended: the postponed processes become ready, or else the updates that are due are
    /// activated.
    ///
    /// # Errors
    ///
    /// Want of memory. The moment is not to be used again then.
    pub fn pass_turn(
        &mut self,
        setup: &Setup<'_, N>,
        window: &TraceWindow<N>,
    ) -> Result<(), NoMemory>
        requires window { IsInWindow window.now.before window.now.through self.old }
        requires place { HasTurn N.design N.plan self.old }
        ensures { OnOk result ((place : Place) (next : Phase) (later : List Phase) → IsShownAt N.design N.plan place self.old → place.left ≡ [] → place.later ≡ next ∷ later →
            TakesTurn N.design N.plan place next later self.old self.new) }
    {
        // The law on which the turn rests, and how many phases the window has.
        passed_blocks::turns_are_shown();
        let _codes = setup.codes();
        let _phases = window.phases();
        let next = self.place.phase + 1;
        if some_postponed(&self.standing.states) {
            resume(&mut self.standing.states);
            begin_count(&mut self.standing.ran);
            self.passed.clear();
            self.place.phase = next;
            return Ok(());
        }
        activate_all(self.time, &mut self.standing)?;
        begin_count(&mut self.standing.ran);
        self.passed.clear();
        self.place.phase = next;
        Ok(())
    }
}
