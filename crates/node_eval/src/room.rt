// The room that blocks are run in, and a whole run.

ghost use Rattle.std.specs.Prelude.{◌≡◌, ℕ, ◌<◌, ◌≤◌, map, take, length, get_or, IfOk};
ghost use Rattle.vf_base.specs.Base.{object_number};
ghost use Rattle.v_design.specs.Plain.{statement_of};
ghost use Rattle.v_design.specs.Assignments.{value_at, run_statement};
ghost use Rattle.node_eval.specs.Overlaid.{StandOnce, HoldOwn};
ghost use Rattle.node_eval.specs.Rooms.{room_size};
ghost use Rattle.node_eval.specs.Running.{MayRun};

use crate::overlay::Frame;
use crate::run::run;
use crate::tools::Tools;
use expr_eval::Stack;
use four_value::Vec4;
use std::alloc::Global;
use v_design::{FlatStmt, Values};
use vf_base::{NoMemory, ObjectId};

/// The room in which blocks are run: a table over all objects, and what statements need.
#[derive(Drop)]
pub struct BlockRoom {
    places: Vec<usize>,
    tools: Tools,
}

impl BlockRoom {
    /// Room for the blocks of a design with so many objects. An assignment has no more targets than a value has bits.
    ///
    /// # Errors
    ///
    /// Want of memory.
    pub fn new(alloc: Global, objects: usize) -> Result<BlockRoom, NoMemory>
        ensures { IfOk result (λ room. room_size room ≡ objects) }
    {
        let places = vec![in alloc; 0usize; objects]?;
        let updates = Vec::with_capacity(alloc, 128)?;
        let stack = Stack::new(alloc, 256)?;
        Ok(BlockRoom {
            places,
            tools: Tools { updates, stack },
        })
    }
}

/// Writes for each output its place among them into the table.
fn tell_places(outputs: &[ObjectId], places: &mut [usize])
    requires once { StandOnce (map object_number outputs.now) }
    requires within { (k : ℕ) → k < length outputs.now → get_or (map object_number outputs.now) k 0 < length places.old }
    ensures { (k : ℕ) → k < length outputs.now → get_or places.new (get_or (map object_number outputs.now) k 0) 0 ≡ k }
{
    'outputs: for (number, output) in outputs.iter().enumerate() {
        places[output.0 as usize] = number;
    }
}

/// Holds for each output the value that it has before the block runs.
fn hold_first<V: Values>(outputs: &[ObjectId], values: &V, held: &mut [Vec4])
    requires there { (k : ℕ) → k < length outputs.now → get_or (map object_number outputs.now) k 0 < length (V.values values.now) }
    requires alike { length outputs.now ≤ length held.old }
    ensures { HoldOwn (map object_number outputs.now) held.new (V.values values.now) }
{
    'outputs: for (number, output) in outputs.iter().enumerate() {
        held[number] = values.value(*output);
    }
}

/// Runs a combinational block over some values: holds for each of its outputs what its statement leaves there. It takes no memory.
pub fn run_block<V: Values>(
    statement: &FlatStmt,
    outputs: &[ObjectId],
    values: &V,
    held: &mut [Vec4],
    room: &mut BlockRoom,
)
    requires may { MayRun (V.values values.now) outputs.now (statement_of statement.now) }
    requires once { StandOnce (map object_number outputs.now) }
    requires there { (k : ℕ) → k < length outputs.now → get_or (map object_number outputs.now) k 0 < length (V.values values.now) }
    requires within { (k : ℕ) → k < length outputs.now → get_or (map object_number outputs.now) k 0 < room_size room.old }
    requires alike { length outputs.now ≤ length held.old }
    ensures outputs { take (length outputs.now) held.new ≡ map (value_at (run_statement (statement_of statement.now) (V.values values.now))) (map object_number outputs.now) }
    ensures same { room_size room.new ≡ room_size room.old }
{
    tell_places(outputs, &mut room.places);
    hold_first(outputs, values, held);
    let frame = Frame {
        values,
        outputs,
        places: room.places.as_slice(),
    };
    run(statement, &frame, held, &mut room.tools);
}
