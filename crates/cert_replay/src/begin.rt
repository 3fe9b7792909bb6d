// The beginning of a replay and of its slots.

ghost use Rattle.std.specs.Prelude.{◌≡◌, IfOk, OnOk};
ghost use Rattle.v_design.specs.Views.{machine_with};
ghost use Rattle.cert_laws.specs.Replays.{begun};
ghost use Rattle.cert_replay.specs.Kept.{Keeps, claims_race, bound_kept};
ghost use Rattle.cert_replay.specs.Deeds.{IsStarting, BeginsSlot};

use crate::replaying::Replaying;
use causal_monitor::{SlotLog, Turn};
use machine_events::{Told, begin_phase};
use net_graph::Graph;
use net_state::NetState;
use process_table::ProcessTable;
use slot_record::SlotRecord;
use std::alloc::Global;
use v_design::{Design, Fault, View};
use vf_base::{NoMemory, Seq};

/// The log of a slot of which no phase has ended.
fn empty_log(alloc: Global) -> SlotLog {
    SlotLog {
        time: 0,
        phases: Seq::from_vec(Vec::new(alloc)),
        actors: Seq::from_vec(Vec::new(alloc)),
        turns: Seq::from_vec(Vec::new(alloc)),
    }
}

impl<'d> Replaying<'d> {
    /// A slot begins after a turn, with its first phase.
    ///
    /// # Errors
    ///
    /// Want of memory.
    pub(crate) fn begin_slot(&mut self, turn: Turn) -> Result<(), NoMemory>
        requires { IsStarting self.old }
        ensures { OnOk result (BeginsSlot self.old self.new) }
    {
        self.record.begin_slot(&mut self.log)?;
        begin_phase(&self.table, &mut self.record, &mut self.told, turn)?;
        self.steps = 0;
        Ok(())
    }

    /// A replay at the start of a run of a design, good or under a fault, with all node events done; it goes to a time, in steps. `race` tells whether a race is
    /// claimed of the run.
    ///
    /// # Errors
    ///
    /// Want of memory.
    pub fn begin(
        alloc: Global,
        design: &'d Design,
        graph: &'d Graph<'d>,
        fault: Option<Fault>,
        race: bool,
        bound: u64,
    ) -> Result<Replaying<'d>, NoMemory>
        requires { graph.now.design.now ≡ design.now }
        ensures begins { IfOk result (λ replaying. Keeps (machine_with design.now fault) (begun (machine_with design.now fault)) replaying) }
        ensures race { IfOk result (λ replaying. claims_race replaying ≡ race) }
        ensures bound { IfOk result (λ replaying. bound_kept replaying ≡ bound) }
    {
        race_laws::writes_stay();
        let nets = NetState::new(alloc, View { design, fault }, graph)?;
        let table = ProcessTable::new(alloc, design)?;
        let processes = design.processes.as_slice().len();
        let record = SlotRecord::new(alloc, processes, nets.object_count())?;
        let mut replaying = Replaying {
            graph,
            nets,
            table,
            record,
            log: empty_log(alloc),
            told: Told::new(alloc),
            steps: 0,
            race,
            bound,
        };
        replaying.begin_slot(Turn::Start)?;
        replaying.settle()?;
        Ok(replaying)
    }
}
