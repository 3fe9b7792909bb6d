// The moves of a slot.

ghost use Rattle.std.specs.Prelude.{◌≡◌, ℕ, Some, None, IfOk, OnOk};
ghost use Rattle.std.specs.Option.{option_map};
ghost use Rattle.vf_base.specs.Base.{node_number};
ghost use Rattle.v_design.specs.States.{Evaluation, turn_of};
ghost use Rattle.v_design.specs.Runs.{work_of, named_event};
ghost use Rattle.machine_laws.specs.SlotLoop.{IsIdle, NoNodeWorks, first_lane};
ghost use Rattle.net_state.specs.States.{nodes_in};
ghost use Rattle.machine.specs.Standing.{state_kept};
ghost use Rattle.machine.specs.Moments.{IsMovingIn, StaysAt};
ghost use Rattle.machine_events.specs.Turns.{TellsTurn};
ghost use Rattle.machine.specs.declared.guide.Guide.{Guide};
ghost use Rattle.machine.specs.Guides.{IsMovingInBy};
ghost use Rattle.machine.specs.Phases.{IsBegun, MakesMove, ComesToEnd, TurnsPhase, steps_made};

use crate::guide::Guide;
use crate::parts::Machine;
use causal_monitor::{SlotLog, Turn};
use machine_events::{begin_phase, slot_turn};
use std::sync::ledger::Ledger;
use vf_base::{MAX_SLOT_STEPS, NoMemory, NodeId, Steps};

/// What was made of a slot: a step of a process or of a lane, which are counted, work on a node or a turn, or nothing, since nothing is left.
#[derive(Clone, Copy, PartialEq, Eq, Debug)]
pub(crate) enum Made {
    ProcessStep,
    LaneStep,
    Uncounted,
    Nothing,
}

/// How many process and lane steps were made.
fn counted(made: Made) -> u32
    ensures { result ≡ steps_made made }
{
    match made {
        Made::ProcessStep | Made::LaneStep => 1,
        Made::Uncounted | Made::Nothing => 0,
    }
}

impl<'d> Machine<'d> {
    /// The least node with work.
    fn least_node(&mut self) -> Option<NodeId>
        ensures least { work_of 0 (nodes_in self.old.nets) ≡ named_event Evaluation (option_map node_number result) }
        ensures stays { StaysAt self.old self.new }
    {
        self.nets.least_node()
    }

    /// A phase ends, and a turn within the slot begins the next one.
    ///
    /// # Errors
    ///
    /// Want of memory.
    fn turn_phase(&mut self, turn: Turn, log: &mut SlotLog) -> Result<(), NoMemory>
        requires moving { IsMovingIn self.old log.old }
        requires idle { IsIdle (state_kept self.old) }
        requires turn { TellsTurn (Some turn) (turn_of (state_kept self.old)) }
        ensures { OnOk result (TurnsPhase self.old self.new log.old log.new) }
    {
        machine_laws::slot_goes_on();
        machine_laws::phases_are_few();
        run_record::runs_go_on();
        runs_beside::runs_go_beside();
        self.record.end_phase(self.graph, log)?;
        self.table.turn()?;
        begin_phase(&self.table, &mut self.record, &mut self.told, turn)?;
        Ok(())
    }

    /// Makes the next move of the slot where no event is possible: a turn.
    ///
    /// # Errors
    ///
    /// Want of memory.
    fn turn_move(&mut self, log: &mut SlotLog) -> Result<Made, NoMemory>
        requires moving { IsMovingIn self.old log.old }
        requires idle { IsIdle (state_kept self.old) }
        ensures { IfOk result (λ made. (guide : Guide) (now : ℕ) → MakesMove made guide guide now now self.old self.new log.old log.new) }
    {
        match slot_turn(&self.table) {
            Some(turn) => {
                self.turn_phase(turn, log)?;
                Ok(Made::Uncounted)
            }
            None => Ok(Made::Nothing),
        }
    }

    /// Makes the next move of the slot where no node has work and no lane has an update: a step of the least ready process, else a turn.
    ///
    /// # Errors
    ///
    /// Want of memory.
    fn ready_move<L: Ledger>(
        &mut self,
        log: &mut SlotLog,
        guide: &mut Guide<'_>,
        steps: &mut Steps<L>,
    ) -> Result<Made, NoMemory>
        requires moving { IsMovingInBy guide.old steps.old self.old log.old }
        requires nodes { NoNodeWorks (state_kept self.old) }
        requires lanes { first_lane (state_kept self.old) ≡ None }
        ensures { IfOk result (λ made. MakesMove made guide.old guide.new steps.old steps.new self.old self.new log.old log.new) }
    {
        match self.table.first_ready() {
            Some(process) => {
                self.process_step(guide, process, steps)?;
                Ok(Made::ProcessStep)
            }
            None => {
                let made = self.turn_move(log)?;
                Ok(made)
            }
        }
    }

    /// Makes the next move of the slot where no node has work: that of the least lane, else of the least ready process, else a turn.
    ///
    /// # Errors
    ///
    /// Want of memory.
    fn process_move<L: Ledger>(
        &mut self,
        log: &mut SlotLog,
        guide: &mut Guide<'_>,
        steps: &mut Steps<L>,
    ) -> Result<Made, NoMemory>
        requires moving { IsMovingInBy guide.old steps.old self.old log.old }
        requires nodes { NoNodeWorks (state_kept self.old) }
        ensures { IfOk result (λ made. MakesMove made guide.old guide.new steps.old steps.new self.old self.new log.old log.new) }
    {
        runs_beside::runs_go_beside();
        match self.table.first_lane() {
            Some(process) => {
                self.lane_step(process)?;
                Ok(Made::LaneStep)
            }
            None => {
                let made = self.ready_move(log, guide, steps)?;
                Ok(made)
            }
        }
    }

    /// Makes the next move of the slot: the event of the least node, lane or process, else a turn.
    ///
    /// # Errors
    ///
    /// Want of memory.
    fn make_move<L: Ledger>(
        &mut self,
        log: &mut SlotLog,
        guide: &mut Guide<'_>,
        steps: &mut Steps<L>,
    ) -> Result<Made, NoMemory>
        requires { IsMovingInBy guide.old steps.old self.old log.old }
        ensures { IfOk result (λ made. MakesMove made guide.old guide.new steps.old steps.new self.old self.new log.old log.new) }
    {
        runs_beside::runs_go_beside();
        match self.least_node() {
            Some(node) => {
                self.node_work(node)?;
                Ok(Made::Uncounted)
            }
            None => {
                let made = self.process_move(log, guide, steps)?;
                Ok(made)
            }
        }
    }

    /// Makes the moves of a slot that has begun, and tells whether it is hyperactive.
    ///
    /// # Errors
    ///
    /// Want of memory.
    pub(crate) fn run<L: Ledger>(
        &mut self,
        log: &mut SlotLog,
        guide: &mut Guide<'_>,
        steps: &mut Steps<L>,
    ) -> Result<bool, NoMemory>
        requires { IsBegun guide.old steps.old self.old log.old }
        ensures { IfOk result (λ hyper. ComesToEnd hyper guide.old guide.new steps.old steps.new self.old self.new log.old log.new) }
    {
        machine_laws::slot_ends();
        let mut taken = 0u32;
        'moves: for _move in 0..u64::MAX {
            if taken > MAX_SLOT_STEPS {
                return Ok(true);
            }
            let made = self.make_move(log, guide, steps)?;
            if let Made::Nothing = made {
                return Ok(false);
            }
            taken += counted(made);
        }
        unreachable!()
    }
}
