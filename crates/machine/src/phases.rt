// The turn before a slot.

ghost use Rattle.std.specs.Prelude.{◌≡◌, false, Some, IfOk};
ghost use Rattle.v_design.specs.Designs.{Machine};
ghost use Rattle.v_design.specs.States.{State, has_event, some_in};
ghost use Rattle.process_table.specs.Arranged.{IsKept, table_of};
ghost use Rattle.process_table.specs.Tables.{IsTableOf};
ghost use Rattle.machine.specs.declared.parts.Stage.{Stage};
ghost use Rattle.machine.specs.Standing.{begins_at, first_turn};

use crate::parts::Stage;
use causal_monitor::Turn;
use process_table::ProcessTable;
use vf_base::NoMemory;

/// The turn before a slot is taken, except at the start.
///
/// # Errors
///
/// Want of memory.
pub(crate) fn turn_to_slot(stage: Stage, table: &mut ProcessTable) -> Result<Turn, NoMemory>
    requires kept { IsKept table.old }
    requires quiet { stage ≡ Stage.Between → some_in has_event (table_of table.old).processes ≡ false }
    ensures turn { IfOk result (λ turn. turn ≡ first_turn stage) }
    ensures kept { IfOk result (λ _. IsKept table.new) }
    ensures begins { IfOk result (λ _. (machine : Machine) (state begins : State) → IsTableOf machine state (table_of table.old) →
        begins_at stage state ≡ Some begins → IsTableOf machine begins (table_of table.new)) }
{
    match stage {
        Stage::Start => Ok(Turn::Start),
        Stage::Between => {
            table.turn()?;
            Ok(Turn::Time)
        }
        Stage::Over => Ok(Turn::Time),
    }
}
