// The section of a run in a certificate.

ghost use Rattle.std.specs.Prelude.{◌≡◌, ◌≤◌, length, IfOk, Option, None};
ghost use Rattle.v_design.specs.Designs.{Machine};
ghost use Rattle.v_design.specs.PlainDesigns.{design_of};
ghost use Rattle.v_design.specs.Views.{machine_with};
ghost use Rattle.text_lines.specs.Plain.{plain_texts};
ghost use Rattle.cert_laws.specs.Replays.{Replay};
ghost use Rattle.cert_laws.specs.Valid.{lines_said};
ghost use Rattle.cert_runs.specs.AskedRuns.{IsAskedRun, KeepsAsked, asked_of};
ghost use Rattle.cert_runs.specs.Asking.{IsAskedOf, bound_asked};
ghost use Rattle.cert_runs.specs.Sections.{SectionBy, begins_run};

use crate::asked::{Asked, Shown};
use crate::asked_run::AskedRun;
use crate::lines::{Followed, follow_lines, run_line_of};
use net_graph::Graph;
use std::alloc::Global;
use std::sync::ledger::Ledger;
use v_design::{Design, Fault};
use vf_base::{NoMemory, Steps};

/// What the lines of a run come to.
#[derive(Drop)]
pub enum Section {
    /// So many lines are followed, and then a line of the run isn't.
    Breaks(usize),
    /// So many lines are followed, and then there is no line of a run; what the run shows where it may be left there, and nothing where it may not.
    Stops(usize, Option<Shown>),
}

/// Whether the first of some lines is one of a run.
fn begins_run(lines: &[&[u8]]) -> bool
    ensures { result ≡ begins_run (lines_said (plain_texts lines.now)) }
{
    if lines.len() == 0 {
        return false;
    }
    run_line_of(lines[0]).is_some()
}

/// The bound of a run of which something is asked, if it has one.
fn bound_of(asked: Asked<'_>) -> Option<u64>
    ensures { result ≡ bound_asked asked.entry }
{
    match asked {
        Asked::Samples { bound, .. } => Some(bound),
        Asked::Conflict { time, .. } => Some(time),
        Asked::Nothing => None,
    }
}

/// The section of a run without a bound, which has no lines.
fn no_section(asked: Asked<'_>, lines: &[&[u8]]) -> Section
    requires { bound_asked asked ≡ None }
    ensures { (machine : Machine) → SectionBy asked.entry machine (lines_said (plain_texts lines.now)) None result }
{
    if begins_run(lines) {
        Section::Breaks(0)
    } else {
        Section::Stops(0, Some(Shown::Nothing))
    }
}

/// The section of a run with a bound.
fn bounded_section<L: Ledger>(
    run: &mut AskedRun<'_, '_>,
    lines: &[&[u8]],
    steps: &mut Steps<L>,
) -> Result<Section, NoMemory>
    requires run { IsAskedRun 0 run.old }
    requires few { length lines.now ≤ 16777216 }
    ensures { IfOk result (λ section. (machine : Machine) (before : Option Replay) → KeepsAsked machine before run.old →
        SectionBy (asked_of run.old) machine (lines_said (plain_texts lines.now)) before section) }
{
    match follow_lines(run, lines, steps)? {
        Followed::Breaks(count) => Ok(Section::Breaks(count)),
        Followed::Stops(count) => {
            let shown = run.show()?;
            Ok(Section::Stops(count, shown))
        }
    }
}

/// Follows the lines of a run of a design, good or under a fault, from its start on: how far they go, and what the run shows of what is asked, if it may be left
/// there. With a bound, a time in steps, it is through to it then; without one it has no lines. There are at most 16,777,216 lines, as many as a certificate has bytes.
///
/// # Errors
///
/// Want of memory.
pub fn follow_section<'d, L: Ledger>(
    alloc: Global,
    design: &'d Design,
    graph: &'d Graph<'d>,
    fault: Option<Fault>,
    asked: Asked<'_>,
    lines: &[&[u8]],
    steps: &mut Steps<L>,
) -> Result<Section, NoMemory>
    requires graph { graph.now.design.now ≡ design.now }
    requires few { length lines.now ≤ 16777216 }
    requires asked { IsAskedOf (design_of design.now) asked }
    ensures { IfOk result (SectionBy asked.entry (machine_with design.now fault) (lines_said (plain_texts lines.now)) None) }
{
    replay_laws::times_grow();
    let Some(bound) = bound_of(asked) else {
        return Ok(no_section(asked, lines));
    };
    let mut run = AskedRun::new(alloc, design, graph, fault, asked, bound)?;
    let section = bounded_section(&mut run, lines, steps)?;
    Ok(section)
}
