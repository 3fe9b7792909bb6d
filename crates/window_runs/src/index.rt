// The index of a window's runs by process.

ghost use Rattle.std.specs.Prelude.{◌≡◌, ◌-◌, ◌<◌, ◌≤◌, ◌^◌, ℕ, All, [], get_or, length, map, slice_get, IfOk, OnOk};
ghost use Rattle.std.specs.Option.{option_map};
ghost use Rattle.std.specs.List.Sorted.{IsNonDecreasingBy};
ghost use Rattle.vf_base.specs.Base.{process_number};
ghost use Rattle.vf_base.specs.Lists.{map_numbered};
ghost use Rattle.window_runs.specs.Placed.{at_moment, placed};
ghost use Rattle.run_ends.specs.RunEnds.{ends_of};
ghost use Rattle.window_runs.specs.RunsByProcess.{run_process, run_phase, runs_of_process, only_at, IsRunIndexOf};
ghost use Rattle.window_runs.specs.Standing.{last_run};
ghost use Rattle.window_runs.specs.Through.{runs_through};

use crate::latest::list_latest;
use process_code::RunEnd;
use std::alloc::Global;
use vf_base::{NoMemory, ProcId};
use window_index::{Occurrence, WindowIndex};

/// Of each process the phases of its runs, and their places among all runs, both in ascending order; and of each run the latest time, in steps, at which an update is due that its
/// process appended up to it, with room for such a time of each process.
#[derive(Drop)]
pub struct RunIndex {
    pub phases: WindowIndex,
    pub places: WindowIndex,
    pub latest: Vec<u64>,
    pub highest: Vec<u64>,
}

/// Lists each run as an occurrence of its process at its phase, in place of the occurrences that were listed.
fn list_phases(runs: &[RunEnd], occurrences: &mut Vec<Occurrence>) -> Result<(), NoMemory>
    ensures { OnOk result (occurrences.new.items ≡ map (at_moment run_process run_phase) runs.now) }
{
    occurrences.clear();
    'runs: for run in runs {
        occurrences.push(Occurrence {
            number: run.process.0,
            moment: run.phase,
        })?;
    }
    Ok(())
}

/// Puts each of some occurrences at its place among them, in place of its moment.
fn put_at_places(occurrences: &mut Vec<Occurrence>)
    requires { length occurrences.old.items < 2 ^ 32 }
    ensures { occurrences.new.items ≡ map_numbered placed 0 occurrences.old.items }
{
    'occurrences: for place in 0..occurrences.len() {
        let occurrence = &mut occurrences[place];
        occurrence.moment = place as u32;
    }
}

/// A run that was found, if it is of a phase.
fn only_in<'r>(found: Option<&'r RunEnd>, phase: u32) -> Option<&'r RunEnd>
    ensures { option_map (λ run. run.now) result ≡ only_at phase (option_map (λ run. run.now) found.entry) }
{
    match found {
        None => None,
        Some(run) => { if run.phase == phase { Some(run) } else { None } }
    }
}

impl RunIndex {
    /// The index of no runs of so many processes.
    ///
    /// # Errors
    ///
    /// Want of memory.
    pub fn new(alloc: Global, processes: u32) -> Result<RunIndex, NoMemory>
        ensures { IfOk result (λ index. IsRunIndexOf processes [] index) }
    {
        let phases = WindowIndex::new(alloc, processes)?;
        let places = WindowIndex::new(alloc, processes)?;
        Ok(RunIndex {
            phases,
            places,
            latest: Vec::new(alloc),
            highest: Vec::new(alloc),
        })
    }

    /// Makes the index that of other runs of the same processes, which come in ascending order of their phases. It uses the memory that it has and that of `occurrences`,
    /// so memory is taken only where there are more runs than ever.
    ///
    /// # Errors
    ///
    /// Want of memory. Nothing is said of the index then.
    pub fn refill(
        &mut self,
        runs: &[RunEnd],
        occurrences: &mut Vec<Occurrence>,
    ) -> Result<(), NoMemory>
        requires same { length self.old.places ≡ length self.old.phases }
        requires within { All (λ run. process_number run.process < length self.old.phases) runs.now }
        requires rise { IsNonDecreasingBy run_phase runs.now }
        requires few { length runs.now < 2 ^ 32 - 1 }
        ensures { OnOk result (IsRunIndexOf (length self.old.phases) runs.now self.new) }
    {
        list_phases(runs, occurrences)?;
        self.phases.refill(occurrences)?;
        put_at_places(occurrences);
        self.places.refill(occurrences)?;
        list_latest(runs, &mut self.highest, &mut self.latest)?;
        Ok(())
    }

    /// How many runs of a process come before a phase.
    fn count_before(&self, process: ProcId, phase: u32) -> usize
        requires { process_number process < length self.now.phases }
        ensures few { result < 2 ^ 63 }
        ensures before { (place : ℕ) → place < result → get_or (get_or self.now.phases (process_number process) []) place 0 < phase }
        ensures behind { (place : ℕ) → result ≤ place → place < length (get_or self.now.phases (process_number process) []) →
            phase ≤ get_or (get_or self.now.phases (process_number process) []) place 0 }
    {
        let phases = self.phases.moments(process.0);
        phases.partition_point(|other| *other < phase)
    }

    /// How many runs of a process come in the phases up to one, and in that.
    pub(crate) fn count_through(&self, process: ProcId, phase: u32) -> usize
        requires { process_number process < length self.now.phases }
        ensures within { result ≤ length (get_or self.now.phases (process_number process) []) }
        ensures before { (place : ℕ) → place < result → get_or (get_or self.now.phases (process_number process) []) place 0 ≤ phase }
        ensures behind { (place : ℕ) → result ≤ place → place < length (get_or self.now.phases (process_number process) []) →
            phase < get_or (get_or self.now.phases (process_number process) []) place 0 }
    {
        let phases = self.phases.moments(process.0);
        phases.partition_point(|other| *other <= phase)
    }

    /// The run at a place among those of a process, by some runs of which this is the index; none past the last.
    pub(crate) fn run_at<'r>(
        &self,
        runs: &'r [RunEnd],
        process: ProcId,
        place: usize,
    ) -> Option<&'r RunEnd>
        requires process { process_number process < length self.now.phases }
        requires index { IsRunIndexOf (length self.now.phases) runs.now self.now }
        ensures { option_map (λ run. run.now) result ≡ slice_get (runs_of_process (process_number process) runs.now) place }
    {
        let places = self.places.moments(process.0);
        if place < places.len() {
            Some(&runs[places[place] as usize])
        } else {
            None
        }
    }

    /// The run of a number, counted from 0, among those of a process in a phase, by some runs of which this is the index; none where there are fewer.
    pub fn run<'r>(
        &self,
        runs: &'r [RunEnd],
        process: ProcId,
        phase: u32,
        number: u32,
    ) -> Option<&'r RunEnd>
        requires process { process_number process < length self.now.phases }
        requires index { IsRunIndexOf (length self.now.phases) runs.now self.now }
        ensures { option_map (λ run. run.now) result ≡ slice_get (ends_of phase (process_number process) runs.now) number }
    {
        let before = self.count_before(process, phase);
        let found = self.run_at(runs, process, before + number as usize);
        only_in(found, phase)
    }

    /// The last run of a process, by some runs of which this is the index; none where it has none.
    pub fn last<'r>(&self, runs: &'r [RunEnd], process: ProcId) -> Option<&'r RunEnd>
        requires process { process_number process < length self.now.phases }
        requires index { IsRunIndexOf (length self.now.phases) runs.now self.now }
        ensures { let own = runs_of_process (process_number process) runs.now in option_map (λ run. run.now) result ≡ slice_get own (length own - 1) }
    {
        let count = self.places.moments(process.0).len();
        self.run_at(runs, process, count.saturating_sub(1))
    }

    /// The last run of a process in the phases up to one, by some runs of which this is the index; none where it has none there.
    pub fn last_through<'r>(
        &self,
        runs: &'r [RunEnd],
        process: ProcId,
        phase: u32,
    ) -> Option<&'r RunEnd>
        requires process { process_number process < length self.now.phases }
        requires index { IsRunIndexOf (length self.now.phases) runs.now self.now }
        ensures { option_map (λ run. run.now) result ≡ last_run (process_number process) (runs_through phase runs.now) }
    {
        let count = self.count_through(process, phase);
        if count == 0 {
            return None;
        }
        self.run_at(runs, process, count - 1)
    }
}
