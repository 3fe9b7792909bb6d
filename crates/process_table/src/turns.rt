// The turns between phases.

ghost use Rattle.std.specs.Prelude.{◌≡◌, ◌<◌, Bool, true, false, length, map, IfOk};
ghost use Rattle.std.specs.Option.{option_map};
ghost use Rattle.vf_base.specs.Base.{process_number};
ghost use Rattle.v_design.specs.Designs.{Machine};
ghost use Rattle.vf_base.specs.Lists.{AllHold};
ghost use Rattle.v_design.specs.Runs.{turned_by};
ghost use Rattle.v_design.specs.States.{State, turn_of, has_event, some_in};
ghost use Rattle.event_queue.specs.Arranged.{lane_number, lane_of};
ghost use Rattle.process_table.specs.Arranged.{IsKept, table_of};
ghost use Rattle.process_table.specs.Deeds.{turn_kind};
ghost use Rattle.process_table.specs.Tables.{IsTableOf};
ghost use Rattle.process_table.specs.Turned.{each_changed, ReadiesRows, FillsLanes};

use crate::deed::TableTurn;
use crate::row::Row;
use crate::rows::{make_ready, put_lane};
use crate::set::ProcessSet;
use crate::table::ProcessTable;
use v_design::Update;
use vf_base::{NoMemory, ProcId, Seq};

/// Makes each of some processes ready.
fn ready_each(rows: &mut Vec<Row>, ready: &mut ProcessSet, processes: &[ProcId])
    requires numbers { AllHold (λ number. number < length rows.old.items) (map process_number processes.now) }
    requires set { length ready.old ≡ length rows.old.items }
    ensures rows { ReadiesRows rows.old.items rows.new.items (map process_number processes.now) }
    ensures set { ready.new ≡ each_changed (λ (member : Bool). true) (map process_number processes.now) ready.old }
{
    'processes: for process in processes {
        make_ready(rows, *process);
        ready.insert(*process);
    }
}

/// Gives each of some processes the lane of its updates that a turn activates.
fn fill_lanes(rows: &mut Vec<Row>, busy: &mut ProcessSet, lanes: Vec<(ProcId, Seq<Update>)>)
    requires numbers { AllHold (λ number. number < length rows.old.items) (map lane_number lanes.items) }
    requires set { length busy.old ≡ length rows.old.items }
    ensures rows { FillsLanes rows.old.items rows.new.items (map lane_of lanes.items) }
    ensures set { busy.new ≡ each_changed (λ (member : Bool). true) (map lane_number lanes.items) busy.old }
{
    'lanes: for lane in lanes {
        let process = lane.0;
        put_lane(rows, process, lane.1);
        busy.insert(process);
    }
}

impl<'d> ProcessTable<'d> {
    /// Takes the turn that comes where no process has an event: the postponed processes become ready, else the updates that are due are activated in
    /// their lanes, else time moves on and those that sleep until then become ready. `None`, and no change, where there is no turn.
    ///
    /// # Errors
    ///
    /// Want of memory.
    pub fn turn(&mut self) -> Result<Option<TableTurn>, NoMemory>
        requires kept { IsKept self.old }
        requires quiet { some_in has_event (table_of self.old).processes ≡ false }
        ensures kind { IfOk result (λ turn. (machine : Machine) (state : State) → IsTableOf machine state (table_of self.old) → option_map turn_kind turn ≡ turn_of state) }
        ensures turned { IfOk result (λ _. (machine : Machine) (state : State) → IsTableOf machine state (table_of self.old) →
            IsTableOf machine (turned_by (turn_of state) state) (table_of self.new)) }
        ensures kept { IfOk result (λ _. IsKept self.new) }
    {
        let turn = self.next_turn();
        let Some(region) = self.queue.take_region(self.time) else {
            return Ok(None);
        };
        self.time = region.time;
        ready_each(&mut self.rows, &mut self.ready, region.processes.as_slice());
        fill_lanes(&mut self.rows, &mut self.lanes, region.lanes.into_vec());
        Ok(turn)
    }
}
