// Over a block.

ghost use Rattle.std.specs.Prelude.{◌≡◌, ◌++◌, ◌+◌, ◌<◌, ◌≤◌, map, length, OnOk};
ghost use Rattle.vf_base.specs.Base.{process_number};
ghost use Rattle.slot_record.specs.Records.{event_of};
ghost use Rattle.passed_blocks.specs.lockstep_slots.Places.{Place};
ghost use Rattle.moment_parts.specs.Within.{AreWoken};
ghost use Rattle.passed_blocks.specs.window_wakes.declared.wake.Wake.{Wake as WakeKept};
ghost use Rattle.passed_blocks.specs.Passed.{at_moment};
ghost use Rattle.passed_blocks.specs.moment_laws.Passing.{HasBlock, PassesBlock};
ghost use Rattle.passed_blocks.specs.moment_laws.Places.{IsInWindow, IsShownAt};
ghost use Rattle.passed_blocks.specs.moment_laws.Steps.{untold, PutsBlock, HasRuns, TakesRuns, TakesUpdate, CanTake, Takes};

use crate::block::block_ahead;
use crate::moment::GoodMoment;
use causal_monitor::Actor;
use good_trace::{Setup, TraceWindow};
use moment_parts::{put_changes, wake_one};
use moment_slices::within;
use passed_blocks::{Wake, WindowWakes, place_behind, take_runs};
use process_code::ProcState;
use v_design::World;
use vf_base::{NoMemory, ProcId};
use window_blocks::WindowBlocks;

/// Makes the processes of some wakes ready, and lists them.
///
/// # Errors
///
/// Want of memory.
fn wake_all(
    wakes: &[Wake],
    states: &mut Vec<ProcState>,
    acted: &mut Vec<ProcId>,
) -> Result<(), NoMemory>
    ensures states { OnOk result (AreWoken (map (λ (wake : WakeKept). process_number wake.process) wakes.now) states.old.items states.new.items) }
    ensures acted { OnOk result (map process_number acted.new.items ≡ map process_number acted.old.items ++ map (λ (wake : WakeKept). process_number wake.process) wakes.now) }
{
    'wakes: for wake in wakes {
        acted.push(wake.process)?;
        wake_one(states, wake.process);
    }
    Ok(())
}

impl<N: World> GoodMoment<N> {
    /// Puts the changes of the window's slot up to a limit, and makes the processes ready whose waits end by then.
    ///
    /// # Errors
    ///
    /// Want of memory.
    fn put_block(
        &mut self,
        window: &TraceWindow<N>,
        wakes: &WindowWakes<N>,
        limit: u32,
    ) -> Result<(), NoMemory>
        requires window { IsInWindow window.now.before window.now.through self.old }
        requires slot { window.now.before + self.old.slot < window.now.through }
        requires order { self.old.moment ≤ limit }
        ensures { OnOk result (PutsBlock N.design N.plan limit wakes.now.wakes self.old self.new) }
    {
        let slot = self.slot();
        let moment = self.moment();
        let changes = within(window.changes_in(slot), moment, limit);
        put_changes(changes, &mut self.values, &mut self.passed.changed)?;
        let woken = wakes.within(moment, limit);
        wake_all(woken, &mut self.standing.states, &mut self.passed.acted)?;
        Ok(())
    }

    /// Takes the runs that end up to the one of a process.
    ///
    /// # Errors
    ///
    /// Want of memory.
    fn take_block(
        &mut self,
        setup: &Setup<'_, N>,
        window: &TraceWindow<N>,
        process: ProcId,
    ) -> Result<(), NoMemory>
        requires window { IsInWindow window.now.before window.now.through self.old }
        requires slot { window.now.before + self.old.slot < window.now.through }
        requires runs { HasRuns N.design N.plan (process_number process) self.old }
        ensures { OnOk result (TakesRuns N.design N.plan (process_number process) self.old self.new) }
    {
        let slot = self.slot();
        let runs = window.runs_in(slot);
        let from = self.place.runs;
        let to = place_behind(runs, from, process);
        let own = &runs[from..to];
        // The window has the phase, and so a number for the next one.
        let _phases = window.phases();
        let phase = self.place.phase + 1;
        let codes = setup.codes();
        take_runs(
            window,
            codes,
            phase,
            own,
            &mut self.standing,
            &mut self.passed.acted,
        )?;
        self.place.runs = to;
        Ok(())
    }

    /// Takes the first update of the lane of a process.
    fn take_update(&mut self, process: ProcId)
        requires lane { process_number process < length self.old.lanes }
        ensures { TakesUpdate (process_number process) self.old self.new }
    {
        self.standing.lanes[process.0 as usize].take();
        self.passed.lane = Some(process);
    }

    /// Takes what a block takes that begins so.
    ///
    /// # Errors
    ///
    /// Want of memory.
    fn take(
        &mut self,
        setup: &Setup<'_, N>,
        window: &TraceWindow<N>,
        actor: Actor,
    ) -> Result<(), NoMemory>
        requires window { IsInWindow window.now.before window.now.through self.old }
        requires slot { window.now.before + self.old.slot < window.now.through }
        requires takes { CanTake N.design N.plan (event_of actor) self.old }
        ensures { OnOk result (Takes N.design N.plan (event_of actor) self.old self.new) }
    {
        match actor {
            Actor::Step(process) => self.take_block(setup, window, process),
            Actor::Lane(process) => {
                self.take_update(process);
                Ok(())
            }
            Actor::Eval(_) => unreachable!(),
            Actor::Move(_) => unreachable!(),
        }
    }

    /// Nothing is told of a block any more.
    fn clear_told(&mut self)
        ensures { self.new ≡ untold self.old }
    {
        self.passed.clear();
    }

    /// The next event is that of a moment.
    fn set_moment(&mut self, moment: u32)
        ensures { self.new ≡ at_moment moment self.old }
    {
        self.place.moment = moment;
    }

    /// Passes the next block of the phase.
    ///
    /// # Errors
    ///
    /// Want of memory. The moment is not to be used again then.
    pub fn pass_block(
        &mut self,
        setup: &Setup<'_, N>,
        window: &TraceWindow<N>,
        blocks: &WindowBlocks<N>,
        wakes: &WindowWakes<N>,
    ) -> Result<(), NoMemory>
        requires window { IsInWindow window.now.before window.now.through self.old }
        requires blocks { IsInWindow blocks.now.before blocks.now.through self.old }
        requires wakes { IsInWindow wakes.now.before wakes.now.through self.old }
        requires place { HasBlock N.design N.plan self.old }
        ensures { OnOk result ((place : Place) → IsShownAt N.design N.plan place self.old → 0 < length place.left → PassesBlock N.design N.plan place self.old self.new) }
    {
        // The laws on which the step rests.
        blocks.stands();
        wakes.stands();
        passed_blocks::blocks_are_ahead();
        passed_blocks::blocks_are_passed();
        let phase = self.phase();
        let moment = self.moment();
        let ahead = block_ahead(blocks, phase, moment);
        self.clear_told();
        self.put_block(window, wakes, ahead.end)?;
        self.take(setup, window, ahead.actor)?;
        self.set_moment(ahead.end);
        Ok(())
    }
}
