// The entries of the waits of a process.

ghost use Rattle.std.specs.Prelude.{◌≡◌, ℕ, [], ◌∷◌, ◌++◌, ◌||◌, map, get_or, Vec, IfOk, nat_eq};
ghost use Rattle.std.specs.HashSet.{contains};
ghost use Rattle.std.specs.declared.alloc.Global.{Global};
ghost use Rattle.vf_base.specs.Base.{object_number};
ghost use Rattle.v_design.specs.Plain.{expression_of, statement_of, entry_of, piece_of};
ghost use Rattle.v_design.specs.declared.tree.WaitEntry.{WaitEntry};
ghost use Rattle.v_design.specs.Sized.{IsSized, IsSizedStatement};
ghost use Rattle.v_design.specs.Accesses.{waiting_entries};
ghost use Rattle.v_design.specs.Processes.{change_entries, piece_unless};
ghost use Rattle.process_code.specs.Rests.{Runs};
ghost use Rattle.process_code.specs.Points.{wait_entries, activity_of};
ghost use Rattle.process_code.specs.Compiling.{IsSizedHead, AreSizedSpots};
ghost use Rattle.process_code.specs.Codes.{IsCodeOf, rests_in_code};
ghost use Rattle.process_code.specs.Waits.{change_entry, head_entries, AreWaits};

use crate::code::{Code, Head, Spot};
use crate::state::{ProcState, Stage};
use four_value::Edge;
use process_operands::pieces_read;
use std::alloc::Global;
use std::collections::HashSet;
use v_design::{FlatExpr, FlatStmt, PieceRef, WaitEntry};
use vf_base::NoMemory;

/// Any change of a piece, where its object isn't seen yet.
fn push_once(
    piece: PieceRef,
    seen: &mut HashSet<u32>,
    entries: &mut Vec<WaitEntry>,
) -> Result<(), NoMemory>
    ensures seen { IfOk result (λ _. (object : ℕ) → contains nat_eq seen.new object ≡ (nat_eq (object_number piece.object) object || contains nat_eq seen.old object)) }
    ensures entries { IfOk result (λ _. map entry_of entries.new.items ≡ map entry_of entries.old.items ++ map change_entry (piece_unless
        (contains nat_eq seen.old (object_number piece.object)) (piece_of piece) [])) }
{
    let Ok(is_new) = seen.insert(piece.object.0) else {
        return Err(NoMemory);
    };
    if is_new {
        entries.push(WaitEntry {
            object: piece.object,
            low: 0,
            width: piece.width,
            edge: Edge::Any,
        })?;
    }
    Ok(())
}

/// Any change of each object that a condition reads.
fn condition_entries(alloc: Global, condition: &FlatExpr) -> Result<Vec<WaitEntry>, NoMemory>
    requires { IsSized (expression_of condition.now) }
    ensures { IfOk result (λ entries. map entry_of entries.items ≡ change_entries (expression_of condition.now)) }
{
    let pieces = pieces_read(alloc, condition)?;
    let mut seen = HashSet::new(alloc);
    let mut entries = Vec::new(alloc);
    'pieces: for piece in &pieces {
        push_once(*piece, &mut seen, &mut entries)?;
    }
    Ok(entries)
}

/// The same entries.
fn copied(alloc: Global, entries: &[WaitEntry]) -> Result<Vec<WaitEntry>, NoMemory>
    ensures { IfOk result (λ copy. copy.items ≡ entries.now) }
{
    let mut copy = Vec::with_capacity(alloc, entries.len())?;
    copy.extend_from_slice(entries)?;
    Ok(copy)
}

/// The entries of the wait that begins with a statement; none where none begins.
fn statement_entries(alloc: Global, statement: &FlatStmt) -> Result<Vec<WaitEntry>, NoMemory>
    requires { IsSizedStatement (statement_of statement.now) }
    ensures { IfOk result (λ entries. map entry_of entries.items ≡ wait_entries (Runs (statement_of statement.now) ∷ [])) }
{
    match statement {
        FlatStmt::EventControl { entries, .. } => {
            let entries = copied(alloc, entries.as_slice())?;
            Ok(entries)
        }
        FlatStmt::Wait { condition, .. } => {
            let entries = condition_entries(alloc, condition)?;
            Ok(entries)
        }
        FlatStmt::Null => Ok(Vec::new(alloc)),
        FlatStmt::Block { .. } => Ok(Vec::new(alloc)),
        FlatStmt::If { .. } => Ok(Vec::new(alloc)),
        FlatStmt::Case { .. } => Ok(Vec::new(alloc)),
        FlatStmt::For { .. } => Ok(Vec::new(alloc)),
        FlatStmt::While { .. } => Ok(Vec::new(alloc)),
        FlatStmt::Repeat { .. } => Ok(Vec::new(alloc)),
        FlatStmt::Forever { .. } => Ok(Vec::new(alloc)),
        FlatStmt::Delay { .. } => Ok(Vec::new(alloc)),
        FlatStmt::Blocking { .. } => Ok(Vec::new(alloc)),
        FlatStmt::Nonblocking { .. } => Ok(Vec::new(alloc)),
        FlatStmt::Finish { .. } => Ok(Vec::new(alloc)),
    }
}

/// The entries of the wait that begins at a spot; none where none begins.
fn spot_entries(alloc: Global, spot: &Spot) -> Result<Vec<WaitEntry>, NoMemory>
    requires { IsSizedHead spot.now.head }
    ensures { IfOk result (λ entries. map entry_of entries.items ≡ head_entries spot.now.head) }
{
    let statement = match spot.head {
        Head::Statement(statement) => statement,
        Head::Test(statement) => statement,
        Head::Advance(statement) => statement,
        Head::Turns(statement, _) => statement,
    };
    let entries = statement_entries(alloc, statement)?;
    Ok(entries)
}

/// The entries of the wait that begins at each spot.
pub(crate) fn waits_of(alloc: Global, spots: &[Spot]) -> Result<Vec<Vec<WaitEntry>>, NoMemory>
    requires { AreSizedSpots spots.now }
    ensures { IfOk result (λ waits. AreWaits spots.now (map (λ (entries : Vec WaitEntry Global). entries.items) waits.items)) }
{
    let mut waits = Vec::new(alloc);
    'spots: for spot in spots {
        let entries = spot_entries(alloc, spot)?;
        waits.push(entries)?;
    }
    Ok(waits)
}

/// The entries of the wait that begins at a position of some code; none where none begins.
fn entries_at<'c>(code: &'c Code, position: usize) -> &'c [WaitEntry]
    requires { IsCodeOf code.now.process.now code.now }
    ensures { map entry_of result.now ≡ wait_entries (get_or (rests_in_code code.now) position []) }
{
    if position == 0 {
        return &[];
    }
    if position > code.waits.len() {
        return &[];
    }
    &code.waits[position - 1]
}

impl ProcState {
    /// The entries of the wait in which the process stands, in the order of the text; none where it is in no wait. It takes no memory.
    pub fn waits<'c>(&self, code: &'c Code) -> &'c [WaitEntry]
        requires { IsCodeOf code.now.process.now code.now }
        ensures { map entry_of result.now ≡ waiting_entries (activity_of code.now self.now) }
    {
        match self.stage {
            Stage::Waiting(at) => entries_at(code, at),
            Stage::Ready => &[],
            Stage::Asleep(_) => &[],
            Stage::Postponed => &[],
            Stage::Done => &[],
        }
    }
}
