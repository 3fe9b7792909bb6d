// The ends of phases, and the turns between them.

ghost use Rattle.std.specs.Prelude.{◌≡◌, ◌||◌, not, is_some, option_map, IfOk};
ghost use Rattle.vf_base.specs.Base.{reported_pair};
ghost use Rattle.v_design.specs.States.{turn_of};
ghost use Rattle.v_design.specs.Runs.{ends_by};
ghost use Rattle.v_design.specs.Designs.{Machine};
ghost use Rattle.v_design.specs.PhaseLogs.{log_of};
ghost use Rattle.causal_monitor.specs.Phases.{IsLogOf};
ghost use Rattle.cert_laws.specs.Replays.{Replay, phase_on, slot_on};
ghost use Rattle.replay_laws.specs.Looked.{found_then};
ghost use Rattle.cert_replay.specs.Kept.{HasEnded, IsReplaying, IsAtPhaseEnd, EndsPhase, Turns, bound_kept};
ghost use Rattle.cert_replay.specs.Deeds.{TellsQuiet};

use crate::replaying::Replaying;
use causal_monitor::{PhaseLog, Turn};
use claimed_race::claimed_pair;
use machine_events::{begin_phase, later_time, slot_turn};
use std::alloc::Global;
use vf_base::{NoMemory, Pair};

/// Whether a phase may end: a race is claimed, or no race is found.
fn may_pass(race: bool, found: Option<Pair>) -> bool
    ensures { result ≡ (race || not (is_some found)) }
{
    race || found.is_none()
}

impl<'d> Replaying<'d> {
    /// Whether no event is possible.
    fn is_quiescent(&mut self) -> bool
        requires { IsReplaying self.old }
        ensures { TellsQuiet result self.old self.new }
    {
        match self.nets.least_node() {
            Some(_) => return false,
            None => {}
        }
        match self.table.first_lane() {
            Some(_) => return false,
            None => {}
        }
        match self.table.first_ready() {
            Some(_) => false,
            None => true,
        }
    }

    /// The present phase ends, where it may: no event is possible, and unless a race is claimed it has no two conflicting accesses. The answer is whether it may.
    ///
    /// # Errors
    ///
    /// Want of memory.
    pub fn end_phase(&mut self) -> Result<bool, NoMemory>
        requires { IsReplaying self.old }
        ensures { IfOk result (λ ended. EndsPhase ended self.old self.new) }
    {
        machine_laws::phases_go_on();
        race_laws::writes_stay();
        if !self.is_quiescent() {
            return Ok(false);
        }
        self.record.end_phase(self.graph, &mut self.log)?;
        Ok(may_pass(self.race, self.record.race()))
    }

    /// The log of the phase that has ended, by which a claimed race is looked for.
    fn phase_log(&self) -> &PhaseLog
        requires { IsAtPhaseEnd self.now }
        ensures log { (machine : Machine) (replay : Replay) → HasEnded machine replay self.now → result.now.log ≡ log_of machine replay.begins replay.events }
        ensures named { (machine : Machine) (replay : Replay) → HasEnded machine replay self.now → IsLogOf machine.design result.now.log }
    {
        let phases = self.log.phases.as_slice();
        &phases[phases.len() - 1]
    }

    /// What has been found of a claimed race once the phase has ended: where the phase is the one of a time, in steps, and of a number, from 1 on, the first two of
    /// its accesses that print as claimed and conflict, if there are such; else what was found before.
    ///
    /// # Errors
    ///
    /// Want of memory.
    pub fn look(
        &self,
        alloc: Global,
        time: u64,
        number: u32,
        first: &[u8],
        second: &[u8],
        before: Option<Pair>,
    ) -> Result<Option<Pair>, NoMemory>
        requires { IsAtPhaseEnd self.now }
        ensures { IfOk result (λ found. (machine : Machine) (replay : Replay) → HasEnded machine replay self.now →
            option_map reported_pair found ≡ found_then machine time number first.now second.now replay (option_map reported_pair before)) }
    {
        let now = self.table.time();
        if now != time {
            return Ok(before);
        }
        let present = self.record.number();
        if present != number {
            return Ok(before);
        }
        let found = claimed_pair(
            alloc,
            self.graph.design,
            self.graph,
            self.phase_log(),
            time,
            number,
            first,
            second,
        )?;
        Ok(found)
    }

    /// The next phase of the slot begins, where it has this number. The answer is whether it does.
    ///
    /// # Errors
    ///
    /// Want of memory.
    pub fn turn_to_phase(&mut self, number: u64) -> Result<bool, NoMemory>
        requires { IsAtPhaseEnd self.old }
        ensures { IfOk result (λ went. Turns (λ replay. phase_on (turn_of replay.now) number replay) went self.old self.new) }
    {
        machine_laws::phases_are_few();
        race_laws::writes_stay();
        let Some(turn) = slot_turn(&self.table) else {
            return Ok(false);
        };
        if number != self.record.number() as u64 + 1 {
            return Ok(false);
        }
        self.table.turn()?;
        begin_phase(&self.table, &mut self.record, &mut self.told, turn)?;
        Ok(true)
    }

    /// The next slot begins, where it is at this time and the time is within the run's bound. The answer is whether it does.
    ///
    /// # Errors
    ///
    /// Want of memory.
    pub fn turn_to_slot(&mut self, time: u64) -> Result<bool, NoMemory>
        requires { IsAtPhaseEnd self.old }
        ensures { IfOk result (λ went. Turns (λ replay. slot_on (bound_kept self.old) (turn_of replay.now) time replay) went self.old self.new) }
    {
        race_laws::writes_stay();
        let Some(later) = later_time(&self.table) else {
            return Ok(false);
        };
        if later != time {
            return Ok(false);
        }
        if self.bound < later {
            return Ok(false);
        }
        self.table.turn()?;
        self.begin_slot(Turn::Time)?;
        Ok(true)
    }

    /// Whether the run is through to its bound: no further turn up to it is possible.
    pub fn is_through(&self) -> bool
        requires { IsAtPhaseEnd self.now }
        ensures { (machine : Machine) (replay : Replay) → HasEnded machine replay self.now → result ≡ ends_by (bound_kept self.now) replay.now }
    {
        match slot_turn(&self.table) {
            Some(_) => false,
            None => match later_time(&self.table) {
                Some(later) => self.bound < later,
                None => true,
            },
        }
    }
}
