// What is kept of each process in a block.

ghost use Rattle.std.specs.Prelude.{◌≡◌, ◌<◌, ◌≤◌, ℕ, length, set, OnOk};
ghost use Rattle.vf_base.specs.Base.{process_number};
ghost use Rattle.block_runner.specs.Beside.{AreClean, fresh, row_at};

use std::alloc::Global;
use std::marker::Model;
use vf_base::{NoMemory, ProcId};

/// A run of a process that goes on: how many of its steps were taken, and whether it goes as the good machine's of its number.
#[derive(Clone, Copy, Debug)]
pub struct RunBeside {
    pub taken: u64,
    pub follows: bool,
}

/// A process in a block: how many of its runs ended in it, and the run that goes on, if one does.
#[derive(Clone, Copy, Debug)]
pub struct ProcessBeside {
    pub ended: u64,
    pub going: Option<RunBeside>,
}

/// What is kept of each process, by number; which contracts see as a list. A process past its end has taken no step.
#[derive(Drop)]
pub struct ProcessesBeside {
    rows: Vec<ProcessBeside>,
    stepped: Vec<ProcId>,
}

impl Model for ProcessesBeside {
    ghost use Rattle.std.specs.Prelude.{List};
    ghost use Rattle.block_runner.specs.Beside.{AreClean};
    ghost use Rattle.block_runner.specs.declared.rows.ProcessBeside.{ProcessBeside};

    ghost Value = { List ProcessBeside };

    ghost view = { λ p. p.rows.items };

    ghost invariant = { λ p. AreClean p.rows.items p.stepped.items };
}

/// Of no process anything is kept.
const FRESH: ProcessBeside = ProcessBeside {
    ended: 0,
    going: None,
};

/// Of some processes nothing is kept any more.
fn clear_rows(rows: &mut Vec<ProcessBeside>, stepped: &[ProcId])
    requires { AreClean rows.old.items stepped.now }
    ensures length { length rows.new.items ≡ length rows.old.items }
    ensures fresh { (process : ℕ) → row_at rows.new.items process ≡ fresh }
{
    'processes: for process in stepped {
        let number = process.0 as usize;
        if number < rows.len() {
            rows[number] = FRESH;
        }
    }
}

impl ProcessesBeside {
    /// Of no process anything is kept.
    pub(crate) fn new(alloc: Global) -> ProcessesBeside
        ensures { (process : ℕ) → row_at result process ≡ fresh }
    {
        ProcessesBeside {
            rows: Vec::new(alloc),
            stepped: Vec::new(alloc),
        }
    }

    /// Of so many processes nothing is kept any more.
    pub(crate) fn clear(&mut self, count: usize) -> Result<(), NoMemory>
        ensures there { OnOk result (count ≤ length self.new) }
        ensures fresh { OnOk result ((process : ℕ) → row_at self.new process ≡ fresh) }
    {
        clear_rows(&mut self.rows, &self.stepped);
        self.stepped.clear();
        if self.rows.len() < count {
            self.rows.resize(count, FRESH)?;
        }
        Ok(())
    }

    /// What is kept of a process.
    pub(crate) fn row(&self, process: ProcId) -> ProcessBeside
        ensures { result ≡ row_at self.now (process_number process) }
    {
        let number = process.0 as usize;
        if number < self.rows.len() {
            self.rows[number]
        } else {
            FRESH
        }
    }

    /// Keeps something else of a process.
    pub(crate) fn put(&mut self, process: ProcId, row: ProcessBeside) -> Result<(), NoMemory>
        requires { process_number process < length self.old }
        ensures { OnOk result (self.new ≡ set self.old (process_number process) row) }
    {
        self.stepped.push(process)?;
        self.rows[process.0 as usize] = row;
        Ok(())
    }
}
