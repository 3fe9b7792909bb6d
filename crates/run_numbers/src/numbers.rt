// Numbers of runs, and the runs that are listed beside them.

ghost use Rattle.std.specs.Prelude.{◌≡◌, ℕ, ◌∷◌, IfSome, OnOk, count_by};
ghost use Rattle.vf_base.specs.Base.{process_number};
ghost use Rattle.run_numbers.specs.Numbers.{AreNumbers, HasNumber, IsOppositeAt, SameApart, is_good, is_own};

use vf_base::{NoMemory, ProcId};

/// A run of a process that ended in the faulty machine alone, or in the good machine alone.
#[derive(Clone, Copy, Debug)]
pub struct RunApart {
    pub process: ProcId,
    pub own: bool,
}

/// Of each process, by number, how many runs ended in the good machine's phase, and the runs that ended in one of both machines alone.
#[derive(Clone, Copy)]
pub struct RunNumbers<'a> {
    pub ran: &'a [u32],
    pub apart: &'a [RunApart],
}

/// How many of some runs are the faulty machine's, of one process.
fn own_runs(apart: &[RunApart], process: ProcId) -> usize
    ensures { result ≡ count_by (is_own (process_number process)) apart.now }
{
    let mut count = 0;
    'runs: for run in apart {
        if run.own && run.process == process {
            count += 1;
        }
    }
    count
}

/// How many of some runs are the good machine's, of one process.
fn good_runs(apart: &[RunApart], process: ProcId) -> usize
    ensures { result ≡ count_by (is_good (process_number process)) apart.now }
{
    let mut count = 0;
    'runs: for run in apart {
        if !run.own && run.process == process {
            count += 1;
        }
    }
    count
}

impl<'a> RunNumbers<'a> {
    /// How many runs of a process ended in the faulty machine's phase.
    pub fn number(&self, process: ProcId) -> u32
        requires { HasNumber (process_number process) self.now }
        ensures { (numbers : ℕ → ℕ) → AreNumbers numbers self.now → result ≡ numbers (process_number process) }
    {
        let ran = self.ran[process.0 as usize];
        if self.apart.is_empty() {
            return ran;
        }
        let own = own_runs(self.apart, process) as u64;
        let good = good_runs(self.apart, process) as u64;
        (u64::from(ran) + own - good) as u32
    }
}

/// The place of a run of the same process that ended in the other machine alone, if one is listed.
fn opposite_place(apart: &[RunApart], run: RunApart) -> Option<usize>
    ensures { IfSome result (λ place. IsOppositeAt apart.now run place) }
{
    'places: for place in 0..apart.len() {
        let other = apart[place];
        if other.process == run.process && other.own != run.own {
            return Some(place);
        }
    }
    None
}

/// Lists one run more. Where one of the same process is listed that ended in the other machine alone, that one is struck out instead.
///
/// # Errors
///
/// Want of memory. The list is then as it was.
pub fn list_run(apart: &mut Vec<RunApart>, run: RunApart) -> Result<(), NoMemory>
    ensures { OnOk result (SameApart apart.new.items (run ∷ apart.old.items)) }
{
    if let Some(place) = opposite_place(apart, run) {
        apart.swap_remove(place);
        return Ok(());
    }
    apart.push(run)?;
    Ok(())
}
