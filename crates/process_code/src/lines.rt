// The lines of the statements at which a process stands.

ghost use Rattle.std.specs.Prelude.{◌≡◌, [], ◌∷◌, get_or};
ghost use Rattle.v_design.specs.Plain.{statement_of};
ghost use Rattle.v_design.specs.Accesses.{waiting_line};
ghost use Rattle.process_code.specs.Rests.{Runs};
ghost use Rattle.process_code.specs.Positions.{part_of_head};
ghost use Rattle.process_code.specs.Points.{point_of, tasks_at, activity_of, wait_place};
ghost use Rattle.process_code.specs.Codes.{IsCodeOf, rests_in_code};
ghost use Rattle.process_code.specs.StatesOf.{IsStateOf};
ghost use Rattle.process_code.specs.Lines.{line_of, line_of_part, line_of_tasks};

use crate::code::{Code, Head};
use crate::state::{ProcState, Stage};
use v_design::FlatStmt;

/// The line of a statement.
fn line_of_statement(statement: &FlatStmt) -> u32
    ensures { result ≡ line_of (statement_of statement.now) }
{
    match statement {
        FlatStmt::Null => 0,
        FlatStmt::Block { .. } => 0,
        FlatStmt::If { place, .. } => place.line,
        FlatStmt::Case { place, .. } => place.line,
        FlatStmt::For { place, .. } => place.line,
        FlatStmt::While { place, .. } => place.line,
        FlatStmt::Repeat { place, .. } => place.line,
        FlatStmt::Forever { place, .. } => place.line,
        FlatStmt::Delay { place, .. } => place.line,
        FlatStmt::EventControl { place, .. } => place.line,
        FlatStmt::Wait { place, .. } => place.line,
        FlatStmt::Blocking { place, .. } => place.line,
        FlatStmt::Nonblocking { place, .. } => place.line,
        FlatStmt::Finish { place } => place.line,
    }
}

/// The line of what is first in a rest.
fn line_of_head(head: &Head) -> u32
    ensures { result ≡ line_of_part (part_of_head head.now) }
{
    match head {
        Head::Statement(statement) => line_of_statement(statement),
        Head::Test(statement) => line_of_statement(statement),
        Head::Advance(statement) => line_of_statement(statement),
        Head::Turns(statement, _) => line_of_statement(statement),
    }
}

/// The line of a statement that waits; 0 for any other.
fn line_of_wait(statement: &FlatStmt) -> u32
    ensures { result ≡ (wait_place (Runs (statement_of statement.now) ∷ [])).line }
{
    match statement {
        FlatStmt::EventControl { place, .. } => place.line,
        FlatStmt::Wait { place, .. } => place.line,
        FlatStmt::Null => 0,
        FlatStmt::Block { .. } => 0,
        FlatStmt::If { .. } => 0,
        FlatStmt::Case { .. } => 0,
        FlatStmt::For { .. } => 0,
        FlatStmt::While { .. } => 0,
        FlatStmt::Repeat { .. } => 0,
        FlatStmt::Forever { .. } => 0,
        FlatStmt::Delay { .. } => 0,
        FlatStmt::Blocking { .. } => 0,
        FlatStmt::Nonblocking { .. } => 0,
        FlatStmt::Finish { .. } => 0,
    }
}

/// The line of the wait that begins with what is first in a rest; 0 where none begins.
fn wait_line_of_head(head: &Head) -> u32
    ensures { result ≡ (wait_place (part_of_head head.now ∷ [])).line }
{
    match head {
        Head::Statement(statement) => line_of_wait(statement),
        Head::Test(statement) => line_of_wait(statement),
        Head::Advance(statement) => line_of_wait(statement),
        Head::Turns(statement, _) => line_of_wait(statement),
    }
}

/// The line of the wait that begins at a position of some code; 0 where none begins.
fn wait_line_at(code: &Code, position: usize) -> u32
    requires { IsCodeOf code.now.process.now code.now }
    ensures { result ≡ (wait_place (get_or (rests_in_code code.now) position [])).line }
{
    if position == 0 {
        return 0;
    }
    if position > code.spots.len() {
        return 0;
    }
    let spot = &code.spots[position - 1];
    wait_line_of_head(&spot.head)
}

impl ProcState {
    /// The line of the statement of which a step comes next; 0 at the end of the body.
    pub fn line(&self, code: &Code) -> u32
        requires code { IsCodeOf code.now.process.now code.now }
        requires state { IsStateOf code.now self.now }
        ensures { result ≡ line_of_tasks (tasks_at (rests_in_code code.now) (point_of self.now)) }
    {
        if !self.updates.is_empty() {
            return self.place.line;
        }
        if self.position == 0 {
            return 0;
        }
        let spot = &code.spots[self.position - 1];
        line_of_head(&spot.head)
    }
    /// The line of the wait in which the process stands; 0 where it is in no wait.
    pub fn wait_line(&self, code: &Code) -> u32
        requires { IsCodeOf code.now.process.now code.now }
        ensures { result ≡ waiting_line (activity_of code.now self.now) }
    {
        match self.stage {
            Stage::Waiting(at) => wait_line_at(code, at),
            Stage::Ready => 0,
            Stage::Asleep(_) => 0,
            Stage::Postponed => 0,
            Stage::Done => 0,
        }
    }
}
