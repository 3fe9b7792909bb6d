// The nonblocking updates that processes have pending after a window's runs.

ghost use Rattle.std.specs.Prelude.{◌≡◌, ℕ, ◌-◌, ◌<◌, ◌≤◌, ◌^◌, ◌++◌, [], ◌∷◌, get_or, length, map, IfOk, OnOk};
ghost use Rattle.std.specs.Option.{option_map, option_to_list};
ghost use Rattle.vf_base.specs.Base.{process_number};
ghost use Rattle.v_design.specs.Plain.{due_of};
ghost use Rattle.between_slots.specs.Updates.{due_after};
ghost use Rattle.window_runs.specs.RunsByProcess.{IsRunIndexOf};
ghost use Rattle.window_runs.specs.Through.{appended_of, appended_through, pending_through, AreUpdatesAfter};

use crate::index::RunIndex;
use process_code::RunEnd;
use std::alloc::Global;
use v_design::Due;
use vf_base::{NoMemory, ProcId, Seq};

/// Puts an update behind others, if it is due after a time.
fn push_late(updates: &mut Vec<Due>, due: Due, time: u64) -> Result<(), NoMemory>
    ensures { OnOk result (map due_of updates.new.items ≡ map due_of updates.old.items ++ due_after time (due_of due ∷ [])) }
{
    if due.time <= time {
        return Ok(());
    }
    updates.push(due)?;
    Ok(())
}

/// Puts those of some updates that are due after a time behind others.
fn push_due_after(updates: &mut Vec<Due>, more: &[Due], time: u64) -> Result<(), NoMemory>
    ensures { OnOk result (map due_of updates.new.items ≡ map due_of updates.old.items ++ due_after time (map due_of more.now)) }
{
    'updates: for due in more {
        push_late(updates, *due, time)?;
    }
    Ok(())
}

/// Puts those of the updates that a run appended, if there is one, that are due after a time behind others.
fn push_run(updates: &mut Vec<Due>, run: Option<&RunEnd>, time: u64) -> Result<(), NoMemory>
    ensures { OnOk result (map due_of updates.new.items ≡ map due_of updates.old.items ++ due_after time (appended_of (option_to_list (option_map (λ run. run.now) run.entry)))) }
{
    match run {
        None => Ok(()),
        Some(run) => {
            push_due_after(updates, run.later.as_slice(), time)?;
            Ok(())
        }
    }
}

impl RunIndex {
    /// How many of the first so many runs of a process, up to the last one behind which nothing is known to be due after a time, append no update that is.
    fn count_early(&self, process: ProcId, count: usize, time: u64) -> usize
        requires process { process_number process < length self.now.places }
        requires count { count ≤ length (get_or self.now.places (process_number process) []) }
        requires runs { (place : ℕ) → place < count → get_or (get_or self.now.places (process_number process) []) place 0 < length self.now.latest.items }
        ensures within { result ≤ count }
        ensures early { 0 < result → get_or self.now.latest.items (get_or (get_or self.now.places (process_number process) []) (result - 1) 0) 0 ≤ time }
    {
        let places = self.places.moments(process.0);
        'places: for place in (0..count).rev() {
            if self.latest[places[place] as usize] <= time {
                return place + 1;
            }
        }
        0
    }

    /// Puts those of the updates that the runs of a process in the phases up to one append, and that are due after a time, behind others.
    fn push_appended(
        &self,
        runs: &[RunEnd],
        process: ProcId,
        phase: u32,
        time: u64,
        updates: &mut Vec<Due>,
    ) -> Result<(), NoMemory>
        requires process { process_number process < length self.now.phases }
        requires index { IsRunIndexOf (length self.now.phases) runs.now self.now }
        ensures { OnOk result (map due_of updates.new.items ≡ map due_of updates.old.items
            ++ due_after time (appended_through (process_number process) phase runs.now)) }
    {
        let count = self.count_through(process, phase);
        let early = self.count_early(process, count, time);
        'places: for place in early..count {
            push_run(updates, self.run_at(runs, process, place), time)?;
        }
        Ok(())
    }

    /// The updates that a process has pending at a time, in steps, after its runs in the phases up to one, by some runs of which this is the index: of those that it
    /// had pending before, and those that these runs append, the ones that are due after the time.
    ///
    /// # Errors
    ///
    /// Want of memory.
    pub fn pending_through(
        &self,
        alloc: Global,
        runs: &[RunEnd],
        process: ProcId,
        phase: u32,
        time: u64,
        first: &[Due],
    ) -> Result<Vec<Due>, NoMemory>
        requires process { process_number process < length self.now.phases }
        requires index { IsRunIndexOf (length self.now.phases) runs.now self.now }
        ensures { IfOk result (λ pending. map due_of pending.items ≡ pending_through (process_number process) phase time (map due_of first.now) runs.now) }
    {
        let mut pending = Vec::new(alloc);
        push_due_after(&mut pending, first, time)?;
        self.push_appended(runs, process, phase, time, &mut pending)?;
        Ok(pending)
    }
}

/// Puts the updates that each process has pending at a time, in steps, after the runs in the phases up to one, of which this is the index, if it had these pending before,
/// in place of what is listed in `later`.
///
/// # Errors
///
/// Want of memory.
pub fn updates_after(
    alloc: Global,
    updates: &[Seq<Due>],
    runs: &[RunEnd],
    index: &RunIndex,
    phase: u32,
    time: u64,
    later: &mut Vec<Seq<Due>>,
) -> Result<(), NoMemory>
    requires count { length updates.now ≡ length index.now.phases }
    requires index { IsRunIndexOf (length index.now.phases) runs.now index.now }
    requires few { length updates.now < 2 ^ 32 }
    ensures { OnOk result (AreUpdatesAfter phase time updates.now runs.now later.new.items) }
{
    later.clear();
    'processes: for number in 0..updates.len() {
        let process = ProcId(number as u32);
        let first = updates[number].as_slice();
        let pending = index.pending_through(alloc, runs, process, phase, time, first)?;
        later.push(Seq::from_vec(pending))?;
    }
    Ok(())
}
