// Compiled code: the rests that a process can come to, and the ways from each to the next.

ghost use Rattle.std.specs.Prelude.{IfOk};
ghost use Rattle.v_design.specs.Plain.{statement_of};
ghost use Rattle.v_design.specs.Sized.{IsSizedStatement};
ghost use Rattle.process_code.specs.Codes.{IsCodeOf};

use crate::builder::Builder;
use crate::waits::waits_of;
use std::alloc::Global;
use v_design::{FlatStmt, Process, WaitEntry};
use vf_base::NoMemory;

/// What is first in a rest.
#[derive(Clone, Copy)]
pub enum Head<'d> {
    /// A statement.
    Statement(&'d FlatStmt),
    /// The test of a `for`, which stands before each turn of its body.
    Test(&'d FlatStmt),
    /// The assignment of a `for` that ends a turn.
    Advance(&'d FlatStmt),
    /// The turns that are left of a `repeat`, and the number of the `repeat` among those of the process.
    Turns(&'d FlatStmt, usize),
}

/// A rest of a process: what is first, and the position of what comes after it.
#[derive(Clone, Copy)]
pub struct Spot<'d> {
    pub head: Head<'d>,
    pub next: usize,
}

/// Where a step of a rest leads.
#[derive(Drop)]
pub struct Ways {
    /// The position of the body, or of the first branch.
    pub inner: usize,
    /// The position of the second branch, or of a case's default; of a `repeat` its number.
    pub other: usize,
    /// The positions of a case's items.
    pub items: Vec<usize>,
}

/// The code of a process. Position 0 is the end of its body, and position n + 1 is the rest of spot n.
#[derive(Drop)]
pub struct Code<'d> {
    pub process: &'d Process,
    pub start: usize,
    /// How many `repeat`s the process has.
    pub repeats: usize,
    pub spots: Vec<Spot<'d>>,
    pub ways: Vec<Ways>,
    /// The entries of the wait that begins at each spot; none where none begins there.
    pub waits: Vec<Vec<WaitEntry>>,
}

/// Compiles a process.
///
/// # Errors
///
/// Want of memory.
pub fn compile<'d>(alloc: Global, process: &'d Process) -> Result<Code<'d>, NoMemory>
    requires { IsSizedStatement (statement_of process.now.body) }
    ensures { IfOk result (λ code. IsCodeOf process.now code) }
{
    let mut builder = Builder {
        spots: Vec::new(alloc),
        ways: Vec::new(alloc),
        repeats: 0,
    };
    let start = builder.statement(alloc, &process.body, 0)?;
    let Builder {
        spots,
        ways,
        repeats,
    } = builder;
    let waits = waits_of(alloc, &spots)?;
    Ok(Code {
        process,
        start,
        repeats,
        spots,
        ways,
        waits,
    })
}
