// The lines of a window.

ghost use Rattle.std.specs.Prelude.{◌≡◌, ◌≤◌, ◌<◌, length};
ghost use Rattle.vf_base.specs.Base.{object_number, process_number};
ghost use Rattle.v_design.specs.PlainDesigns.{design_of};
ghost use Rattle.between_slots.specs.Between.{window_phases};

use crate::words::{append_name, append_pair, append_stage, append_value};
use good_trace::{GoodEnd, TraceWindow};
use process_code::RunEnd;
use run_trace::RunWindow;
use std::fmt::Write;
use v_design::{Design, Object, World};
use vf_base::{NoMemory, ObjectId, ProcId};
use window_wakes::Wake;

/// How many runs of a process were counted, and how many updates they wrote and appended.
#[derive(Clone, Copy, Debug, Default)]
struct RunCounts {
    runs: u64,
    written: u64,
    appended: u64,
}

impl RunCounts {
    /// Counts a run.
    fn note(&mut self, run: &RunEnd) {
        self.runs = self.runs.saturating_add(1);
        self.written = self
            .written
            .saturating_add(run.writes.as_slice().len() as u64);
        self.appended = self
            .appended
            .saturating_add(run.later.as_slice().len() as u64);
    }
}

/// How many events of a window touch an object.
fn count_touches<N: World>(window: &TraceWindow<N>, object: ObjectId) -> u64
    requires { object_number object < length N.design.objects }
{
    let mut touches = 0u64;
    let mut next = window.next_touch(object, 0);
    'moments: for moment in 0..window.moments() {
        if next == Some(moment) {
            touches = touches.saturating_add(1);
            next = window.next_touch(object, moment + 1);
        }
    }
    touches
}

/// Counts the runs of a process in a phase.
fn count_phase<N: World>(
    window: &TraceWindow<N>,
    process: ProcId,
    phase: u32,
    counts: &mut RunCounts,
)
    requires process { process_number process < length N.design.processes }
    requires phase { (1 ≤ phase) × (phase ≤ length (window_phases N.design N.plan window.now.before window.now.through)) }
{
    'runs: for number in 0..window.moments() {
        match window.run(process, phase, number) {
            Some(run) => counts.note(run),
            None => return,
        }
    }
}

/// Counts the runs of a process in a window.
fn count_runs<N: World>(window: &TraceWindow<N>, process: ProcId) -> RunCounts
    requires { process_number process < length N.design.processes }
{
    let mut counts = RunCounts::default();
    'phases: for before in 0..window.phases() {
        count_phase(window, process, before + 1, &mut counts);
    }
    counts
}

/// Adds an object's line.
fn append_object<N: World>(
    number: u32,
    object: &Object,
    window: &TraceWindow<N>,
    out: &mut String,
) -> Result<(), NoMemory>
    requires { number < length N.design.objects }
{
    let id = ObjectId(number);
    let moments = window.moments();
    write!(out, "object {number} ")?;
    append_name(out, &object.name)?;
    append_value(out, window.value_at(id, 0))?;
    append_value(out, window.value_at(id, moments / 2))?;
    append_value(out, window.value_at(id, moments))?;
    let touches = count_touches(window, id);
    writeln!(out, ", {touches} touches")?;
    Ok(())
}

/// Adds the lines of all objects.
fn append_objects<N: World>(
    objects: &[Object],
    window: &TraceWindow<N>,
    out: &mut String,
) -> Result<(), NoMemory>
    requires count { length objects.now ≡ length N.design.objects }
    requires few { length objects.now ≤ 65536 }
{
    'objects: for (number, object) in objects.iter().enumerate() {
        append_object(number as u32, object, window, out)?;
    }
    Ok(())
}

/// Adds a process's line.
fn append_process<N: World>(
    number: u32,
    window: &TraceWindow<N>,
    out: &mut String,
) -> Result<(), NoMemory>
    requires { number < length N.design.processes }
{
    let process = ProcId(number);
    write!(out, "process {number} ")?;
    append_stage(out, window.process_at_beginning(process).stage)?;
    let RunCounts {
        runs,
        written,
        appended,
    } = count_runs(window, process);
    writeln!(out, ", {runs} runs, {written} written, {appended} appended")?;
    Ok(())
}

/// Adds the lines of all processes.
fn append_processes<N: World>(
    count: usize,
    window: &TraceWindow<N>,
    out: &mut String,
) -> Result<(), NoMemory>
    requires count { count ≡ length N.design.processes }
    requires few { count ≤ 65536 }
{
    'processes: for number in 0..count {
        append_process(number as u32, window, out)?;
    }
    Ok(())
}

/// Adds how a window ends.
fn append_ending(design: &Design, ending: GoodEnd, out: &mut String) -> Result<(), NoMemory> {
    match ending {
        GoodEnd::Open => out.push_str(" open")?,
        GoodEnd::Through => out.push_str(" through")?,
        GoodEnd::Raced(pair) => append_pair(design, &pair, out)?,
    }
    Ok(())
}

/// The sum of some moments.
fn sum_of(moments: &[u32]) -> u64 {
    let mut sum = 0u64;
    'moments: for moment in moments {
        sum = sum.saturating_add(u64::from(*moment));
    }
    sum
}

/// The sums of the moments and of the processes of some wakes.
fn sums_of(wakes: &[Wake]) -> (u64, u64) {
    let mut moments = 0u64;
    let mut processes = 0u64;
    'wakes: for wake in wakes {
        moments = moments.saturating_add(u64::from(wake.moment));
        processes = processes.saturating_add(u64::from(wake.process.0));
    }
    (moments, processes)
}

/// Adds the lines of a window's blocks and of its wakes: how many there are, and the sums of their moments.
fn append_beside<N: World>(run: &RunWindow<N>, out: &mut String) -> Result<(), NoMemory> {
    let blocks = run.blocks();
    let begins = sum_of(blocks.moments());
    let ends = sum_of(blocks.phase_ends());
    let count = blocks.moments().len();
    writeln!(out, "blocks {count}, moments {begins}, phase ends {ends}")?;
    let wakes = run.wakes().wakes();
    let (moments, processes) = sums_of(wakes);
    let count = wakes.len();
    writeln!(
        out,
        "wakes {count}, moments {moments}, processes {processes}"
    )?;
    Ok(())
}

/// Adds the lines of a window.
pub(crate) fn append_window<N: World>(
    design: &Design,
    run: &RunWindow<N>,
    out: &mut String,
) -> Result<(), NoMemory>
    requires { N.design ≡ design_of design.now }
{
    let window = run.window();
    let begins = window.begins();
    let ends = window.ends();
    let moments = window.moments();
    let phases = window.phases();
    write!(out, "window {begins} {ends}")?;
    append_ending(design, window.ending(), out)?;
    writeln!(out, ": {moments} moments, {phases} phases")?;
    append_beside(run, out)?;
    append_objects(design.objects.as_slice(), window, out)?;
    append_processes(design.processes.as_slice().len(), window, out)
}
