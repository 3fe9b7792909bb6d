// The latest times at which the updates of a window's runs are due.

ghost use Rattle.std.specs.Prelude.{◌≡◌, ◌<◌, ◌≤◌, ◌^◌, ℕ, get_or, length, IfOk, OnOk};
ghost use Rattle.vf_base.specs.Lists.{AllHold};
ghost use Rattle.v_design.specs.declared.plan.Due.{Due as DueKept};
ghost use Rattle.window_runs.specs.RunsByProcess.{run_process, AreLatest};

use process_code::RunEnd;
use v_design::Due;
use vf_base::NoMemory;

/// The later one of two times, in steps.
fn later(time: u64, other: u64) -> u64
    ensures one { time ≤ result }
    ensures other { other ≤ result }
{
    if time < other { other } else { time }
}

/// The latest time, in steps, at which one of some updates is due, or a given one, where that is later.
fn latest_due(updates: &[Due], time: u64) -> u64
    ensures since { time ≤ result }
    ensures all { AllHold (λ (due : DueKept). due.time ≤ result) updates.now }
{
    let mut latest = time;
    'updates: for due in updates {
        let next = later(latest, due.time);
        latest = next;
    }
    latest
}

/// Lengthens a list of times by zeros, so that it has one for a number.
fn make_room(highest: &mut Vec<u64>, number: usize) -> Result<(), NoMemory>
    requires { number < 2 ^ 32 }
    ensures there { OnOk result (number < length highest.new.items) }
    ensures same { OnOk result ((place : ℕ) → get_or highest.new.items place 0 ≡ get_or highest.old.items place 0) }
{
    if number < highest.len() {
        return Ok(());
    }
    highest.resize(number + 1, 0)?;
    Ok(())
}

/// Takes a run in: of its process the latest time, in steps, at which an update is due that it appended so far. The answer is this time.
fn take_run(highest: &mut Vec<u64>, run: &RunEnd) -> Result<u64, NoMemory>
    ensures rise { OnOk result ((process : ℕ) → get_or highest.old.items process 0 ≤ get_or highest.new.items process 0) }
    ensures time { IfOk result (λ time. get_or highest.new.items (run_process run.now) 0 ≡ time) }
    ensures all { IfOk result (λ time. AllHold (λ (due : DueKept). due.time ≤ time) run.now.later) }
{
    let number = run.process.0 as usize;
    make_room(highest, number)?;
    let time = latest_due(run.later.as_slice(), highest[number]);
    highest[number] = time;
    Ok(time)
}

/// Lists for each run the latest time, in steps, at which an update is due that its process appended up to it, in place of the times that were listed. `highest` is room for a time
/// of each process.
pub(crate) fn list_latest(
    runs: &[RunEnd],
    highest: &mut Vec<u64>,
    latest: &mut Vec<u64>,
) -> Result<(), NoMemory>
    ensures { OnOk result (AreLatest runs.now latest.new.items) }
{
    highest.clear();
    latest.clear();
    'runs: for run in runs {
        let time = take_run(highest, run)?;
        latest.push(time)?;
    }
    Ok(())
}
