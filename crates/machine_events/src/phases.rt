// The beginning of a phase, and the turn before it or before a slot.

ghost use Rattle.std.specs.Prelude.{◌≡◌, ◌+◌, ◌^◌, ◌<◌, length, OnOk};
ghost use Rattle.v_design.specs.Designs.{Machine};
ghost use Rattle.v_design.specs.States.{State, turn_of};
ghost use Rattle.slot_record.specs.Records.{object_count};
ghost use Rattle.process_table.specs.Arranged.{IsKept, table_of};
ghost use Rattle.process_table.specs.Tables.{IsTableOf};
ghost use Rattle.slot_record.specs.SlotRecords.{BeginsPhase};
ghost use Rattle.machine_events.specs.Turns.{held_in, TellsTurn, time_in};

use crate::told::Told;
use causal_monitor::Turn;
use process_table::{ProcessTable, TableTurn};
use slot_record::SlotRecord;
use vf_base::NoMemory;

/// The turn before the next phase of the slot; `None` where none comes within the slot.
pub fn slot_turn(table: &ProcessTable) -> Option<Turn>
    requires { IsKept table.now }
    ensures { (machine : Machine) (state : State) → IsTableOf machine state (table_of table.now) → TellsTurn result (turn_of state) }
{
    match table.next_turn() {
        Some(TableTurn::Postponed) => Some(Turn::Zero),
        Some(TableTurn::Updates) => Some(Turn::Updates),
        Some(TableTurn::Time(_)) => None,
        None => None,
    }
}

/// A phase begins after a turn, with the waits that its processes are in. Its number fits in 32 bits, since a slot has few steps.
///
/// # Errors
///
/// Want of memory.
pub fn begin_phase(
    table: &ProcessTable,
    record: &mut SlotRecord,
    told: &mut Told,
    turn: Turn,
) -> Result<(), NoMemory>
    requires kept { IsKept table.now }
    requires room { object_count record.old.phase ≡ length (table_of table.now).design.objects }
    requires number { record.old.number + 1 < 2 ^ 32 }
    ensures { OnOk result (BeginsPhase turn (table_of table.now).time (held_in (table_of table.now)) record.old record.new) }
{
    told.clear();
    table.note_held(&mut told.accesses)?;
    record.begin_phase(turn, table.time(), &told.accesses)?;
    Ok(())
}

/// The time to which the next turn leads, where it leads to a later one.
pub fn later_time(table: &ProcessTable) -> Option<u64>
    requires { IsKept table.now }
    ensures { (machine : Machine) (state : State) → IsTableOf machine state (table_of table.now) → result ≡ time_in (turn_of state) }
{
    match table.next_turn() {
        Some(TableTurn::Time(time)) => Some(time),
        Some(TableTurn::Postponed) => None,
        Some(TableTurn::Updates) => None,
        None => None,
    }
}
