// The room that a state needs, and the state in which a process begins.

ghost use Rattle.std.specs.Prelude.{◌≡◌, ◌≤◌, [], ℕ, replicate, Some, slice_get, IfOk, vec_capacity};
ghost use Rattle.v_design.specs.Plain.{statement_of};
ghost use Rattle.v_design.specs.Processes.{opened};
ghost use Rattle.v_design.specs.Processes.{Ready as ReadyTo};
ghost use Rattle.process_code.specs.Codes.{IsCodeOf};
ghost use Rattle.process_code.specs.Points.{activity_of};
ghost use Rattle.process_code.specs.Positions.{part_of_head, loop_part, advance_part, turns_part};
ghost use Rattle.process_code.specs.declared.code.Spot.{Spot};
ghost use Rattle.process_code.specs.StatesOf.{IsStateOf, HasRoom, HasRoomFor, most_operands, most_updates};

use crate::code::{Code, Head, Spot};
use crate::state::{ProcState, Stage};
use process_operands::{most_assignment_reads, most_case_reads, most_reads};
use std::alloc::Global;
use v_design::FlatStmt;
use vf_base::NoMemory;

/// Room for so many operands and so many updates.
#[derive(Clone, Copy)]
struct Room {
    operands: usize,
    updates: usize,
}

/// The room that a step of a statement needs.
fn room_of_statement(statement: &FlatStmt) -> Result<Room, NoMemory>
    ensures operands { IfOk result (λ room. room.operands ≡ most_operands (statement_of statement.now)) }
    ensures updates { IfOk result (λ room. room.updates ≡ most_updates (statement_of statement.now)) }
{
    let (operands, updates) = match statement {
        FlatStmt::Null => (0, 0),
        FlatStmt::Block { .. } => (0, 0),
        FlatStmt::If { condition, .. } => (most_reads(condition)?, 0),
        FlatStmt::Case { value, items, .. } => (most_case_reads(value, items)?, 0),
        FlatStmt::For {
            first_targets,
            first,
            ..
        } => (
            most_assignment_reads(first_targets, first)?,
            first_targets.len(),
        ),
        FlatStmt::While { condition, .. } => (most_reads(condition)?, 0),
        FlatStmt::Repeat { count, .. } => (most_reads(count)?, 0),
        FlatStmt::Forever { .. } => (0, 0),
        FlatStmt::Delay { .. } => (0, 0),
        FlatStmt::EventControl { .. } => (0, 0),
        FlatStmt::Wait { condition, .. } => (most_reads(condition)?, 0),
        FlatStmt::Blocking { targets, value, .. } => {
            (most_assignment_reads(targets, value)?, targets.len())
        }
        FlatStmt::Nonblocking { targets, value, .. } => {
            (most_assignment_reads(targets, value)?, targets.len())
        }
        FlatStmt::Finish { .. } => (0, 0),
    };
    Ok(Room { operands, updates })
}

/// The room that the test of a `for` needs.
fn room_of_test(statement: &FlatStmt) -> Result<Room, NoMemory>
    ensures { IfOk result (λ room. HasRoomFor room.operands room.updates (loop_part (statement_of statement.now))) }
{
    match statement {
        FlatStmt::For { condition, .. } => {
            let operands = most_reads(condition)?;
            Ok(Room {
                operands,
                updates: 0,
            })
        }
        _ => {
            let room = room_of_statement(statement)?;
            Ok(room)
        }
    }
}

/// The room that the assignment of a `for` that ends a turn needs.
fn room_of_advance(statement: &FlatStmt) -> Result<Room, NoMemory>
    ensures { IfOk result (λ room. HasRoomFor room.operands room.updates (advance_part (statement_of statement.now))) }
{
    match statement {
        FlatStmt::For {
            next_targets,
            next,
            ..
        } => {
            let operands = most_assignment_reads(next_targets, next)?;
            let updates = next_targets.len();
            Ok(Room { operands, updates })
        }
        _ => {
            let room = room_of_statement(statement)?;
            Ok(room)
        }
    }
}

/// The room that the turns of a `repeat` need.
fn room_of_turns(statement: &FlatStmt, number: usize) -> Result<Room, NoMemory>
    ensures { IfOk result (λ room. HasRoomFor room.operands room.updates (turns_part number (statement_of statement.now))) }
{
    let _number = number;
    let room = room_of_statement(statement)?;
    Ok(room)
}

/// The room that a step of a spot needs.
fn room_of_spot(spot: &Spot) -> Result<Room, NoMemory>
    ensures { IfOk result (λ room. HasRoomFor room.operands room.updates (part_of_head spot.now.head)) }
{
    match spot.head {
        Head::Statement(statement) => {
            let room = room_of_statement(statement)?;
            Ok(room)
        }
        Head::Test(statement) => {
            let room = room_of_test(statement)?;
            Ok(room)
        }
        Head::Advance(statement) => {
            let room = room_of_advance(statement)?;
            Ok(room)
        }
        Head::Turns(statement, number) => {
            let room = room_of_turns(statement, number)?;
            Ok(room)
        }
    }
}

/// The greater of two rooms, in both.
fn greater(one: Room, other: Room) -> Room
    ensures one { (one.operands ≤ result.operands) × (one.updates ≤ result.updates) }
    ensures other { (other.operands ≤ result.operands) × (other.updates ≤ result.updates) }
{
    Room {
        operands: one.operands.max(other.operands),
        updates: one.updates.max(other.updates),
    }
}

/// The room that each step of some code needs.
fn room_of_code(spots: &[Spot]) -> Result<Room, NoMemory>
    ensures { IfOk result (λ room. (i : ℕ) (spot : Spot) → slice_get spots.now i ≡ Some spot → HasRoomFor room.operands room.updates (part_of_head spot.head)) }
{
    let mut room = Room {
        operands: 0,
        updates: 0,
    };
    'spots: for spot in spots {
        let own = room_of_spot(spot)?;
        room = greater(room, own);
    }
    Ok(room)
}

/// So many counts of 0.
fn counts_of(alloc: Global, repeats: usize) -> Result<Vec<u128>, NoMemory>
    ensures { IfOk result (λ counts. counts.items ≡ replicate repeats 0) }
{
    let mut counts = Vec::with_capacity(alloc, repeats)?;
    'repeats: for _ in 0..repeats {
        counts.push(0)?;
    }
    Ok(counts)
}

impl ProcState {
    /// The state in which the process of some code begins, with all room that its steps need.
    ///
    /// # Errors
    ///
    /// Want of memory.
    pub fn new(alloc: Global, code: &Code) -> Result<ProcState, NoMemory>
        requires { IsCodeOf code.now.process.now code.now }
        ensures ready { IfOk result (λ state. state.stage ≡ Stage.Ready) }
        ensures state { IfOk result (λ state. IsStateOf code.now state) }
        ensures room { IfOk result (λ state. HasRoom code.now state) }
        ensures activity { IfOk result (λ state. activity_of code.now state ≡ ReadyTo (opened (statement_of code.now.process.now.body) []) []) }
    {
        let room = room_of_code(&code.spots)?;
        let operands = Vec::with_capacity(alloc, room.operands)?;
        let updates = Vec::with_capacity(alloc, room.updates)?;
        let counts = counts_of(alloc, code.repeats)?;
        Ok(ProcState {
            stage: Stage::Ready,
            position: code.start,
            operands,
            counts,
            place: code.process.place,
            delay: None,
            updates,
        })
    }
}
