// The log of a slot.

ghost use Rattle.std.specs.Prelude.{◌≡◌};

use crate::log::PhaseLog;
use vf_base::{NodeId, ProcId, Seq};

/// What an event of a phase is: a step of a process or of its lane, or the evaluation or the update of a node.
#[derive(Clone, Copy, PartialEq, Eq, Debug)]
pub enum Actor {
    Step(ProcId),
    Lane(ProcId),
    Eval(NodeId),
    Move(NodeId),
}

/// What begins a phase: the start of the run, or a turn to the postponed processes, to the updates that are due, or to a later time.
#[derive(Clone, Copy, PartialEq, Eq, Debug)]
pub enum Turn {
    Start,
    Zero,
    Updates,
    Time,
}

/// The log of a slot, phase by phase: the log, who acts in each event, and the turn before the phase. The time is in steps.
#[derive(Drop)]
pub struct SlotLog {
    pub time: u64,
    pub phases: Seq<PhaseLog>,
    pub actors: Seq<Seq<Actor>>,
    pub turns: Seq<Turn>,
}
