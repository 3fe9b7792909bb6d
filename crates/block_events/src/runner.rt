// The parts of a runner.

ghost use Rattle.std.specs.Prelude.{◌≡◌};
ghost use Rattle.std.specs.Prelude.{[]};
ghost use Rattle.std.specs.Option.{option_map};
ghost use Rattle.vf_base.specs.Base.{process_number};
ghost use Rattle.v_design.specs.States.{is_any};
ghost use Rattle.machine_laws.specs.SlotLoop.{first_lane, first_ready};
ghost use Rattle.machine_events.specs.Alone.{AreOfOne};
ghost use Rattle.block_events.specs.Runners.{IsWhole, machine_of, state_of, one_state};
ghost use Rattle.net_state.specs.States.{machine_in};

use four_value::Vec4;
use machine_events::Told;
use net_state::NetState;
use process_table::ProcessTable;
use std::alloc::Global;
use v_design::Values;
use vf_base::{ObjectId, ProcId};

/// A machine that is run block by block: the values and the nodes, the processes, room for what one event tells, and the processes in the midst of a run within the
/// present block, the innermost one last.
///
/// Contracts see a runner as a design with a fault, and a state of it. After a call that ran out of memory a runner isn't to be used again.
#[derive(Drop)]
pub struct Runner<'d> {
    pub(crate) nets: NetState<'d>,
    pub(crate) table: ProcessTable<'d>,
    pub(crate) told: Told,
    pub(crate) running: Vec<ProcId>,
}

impl<'d> Values for Runner<'d> {
    ghost values = { λ runner. runner.nets.objects.values.items };

    fn value(&self, object: ObjectId) -> Vec4 {
        self.nets.value(object)
    }
}

impl<'d> Runner<'d> {
    /// A runner in the state of some values, nodes and processes of one design.
    pub fn new(alloc: Global, nets: NetState<'d>, table: ProcessTable<'d>) -> Runner<'d>
        requires { AreOfOne nets table }
        ensures machine { machine_of result ≡ machine_in nets.entry }
        ensures state { state_of result ≡ one_state nets.entry table.entry }
        ensures whole { IsWhole result }
    {
        Runner {
            nets,
            table,
            told: Told::new(alloc),
            running: Vec::new(alloc),
        }
    }

    /// A block begins: no process is in the midst of a run.
    pub fn begin_block(&mut self)
        requires { IsWhole self.old }
        ensures machine { machine_of self.new ≡ machine_of self.old }
        ensures state { state_of self.new ≡ state_of self.old }
        ensures whole { IsWhole self.new }
        ensures running { self.new.running.items ≡ [] }
    {
        self.running.clear();
    }

    /// Whether a process is in the midst of a run within the present block.
    pub fn is_in_run(&self) -> bool
        ensures { result ≡ is_any self.now.running.items }
    {
        !self.running.as_slice().is_empty()
    }

    /// The process with the least number whose lane has an update.
    pub fn first_lane(&self) -> Option<ProcId>
        requires { IsWhole self.now }
        ensures { option_map process_number result ≡ first_lane (state_of self.now) }
    {
        self.table.first_lane()
    }

    /// The ready process with the least number.
    pub fn first_ready(&self) -> Option<ProcId>
        requires { IsWhole self.now }
        ensures { option_map process_number result ≡ first_ready (state_of self.now) }
    {
        self.table.first_ready()
    }
}
