// The windows of the good first run.

ghost use Rattle.std.specs.Prelude.{◌≡◌, true, OnOk};
ghost use Rattle.v_design.specs.PlainDesigns.{design_of, plan_of};
ghost use Rattle.v_design.specs.WellFormed.{IsPlanOf};

use crate::window::append_window;
use good_trace::Setup;
use good_windows::{GoodRun, NextWindow};
use net_graph::Graph;
use run_trace::RunWindow;
use std::alloc::Global;
use std::fmt::Write;
use std::marker::Brand;
use std::sync::ledger::{Blank, Ledger};
use v_design::{Design, Plan, World};
use vf_base::{NoMemory, Steps};

/// The most windows of which a text tells.
const MOST_WINDOWS: u32 = 1_000;

/// Adds what comes next of a run: the lines of a window, or how the run ends.
fn append_next<N: World>(
    design: &Design,
    next: &NextWindow<N>,
    out: &mut String,
) -> Result<(), NoMemory>
    requires { N.design ≡ design_of design.now }
{
    match next {
        NextWindow::Window(window) => append_window(design, window, out),
        NextWindow::Over => Ok(writeln!(out, "over")?),
        NextWindow::Loops(time) => Ok(writeln!(out, "loops {time}")?),
    }
}

/// The window that came, if one did.
fn window_of<N: World>(next: NextWindow<N>) -> Option<RunWindow<N>> {
    match next {
        NextWindow::Window(window) => Some(window),
        _ => None,
    }
}

/// Adds the lines of one more window of a run, or how the run ends. The answer is the window, if one came; the memory of another one is used for it.
fn next_lines<N: World, L: Ledger>(
    design: &Design,
    run: &mut GoodRun<'_, '_, N>,
    used: Option<RunWindow<N>>,
    steps: &mut Steps<L>,
    out: &mut String,
) -> Result<Option<RunWindow<N>>, NoMemory>
    requires design { N.design ≡ design_of design.now }
    requires usable { run.old.usable ≡ true }
    ensures { OnOk result (run.new.usable ≡ true) }
{
    let next = run.next_window(used, steps)?;
    append_next(design, &next, out)?;
    Ok(window_of(next))
}

/// Adds the lines of each window of a run that has begun, and then how the run ends.
fn append_run<N: World, L: Ledger>(
    design: &Design,
    run: &mut GoodRun<'_, '_, N>,
    steps: &mut Steps<L>,
    out: &mut String,
) -> Result<(), NoMemory>
    requires design { N.design ≡ design_of design.now }
    requires usable { run.old.usable ≡ true }
{
    let mut used = None;
    'windows: for _ in 0..MOST_WINDOWS {
        let window = next_lines(design, run, used, steps, out)?;
        if window.is_none() {
            return Ok(());
        }
        used = window;
    }
    Ok(())
}

/// The same from the beginning.
fn append_windows<N: World, L: Ledger>(
    alloc: Global,
    setup: &Setup<'_, N>,
    steps: &mut Steps<L>,
    out: &mut String,
) -> Result<(), NoMemory> {
    let mut run = GoodRun::new(alloc, setup)?;
    append_run(setup.design(), &mut run, steps, out)?;
    Ok(())
}

/// The lines on the windows of a world, which names the design and the plan.
fn world_text<N: World, L: Ledger>(
    alloc: Global,
    design: &Design,
    plan: &Plan,
    steps: &mut Steps<L>,
) -> Result<String, NoMemory>
    requires world { (N.design ≡ design_of design.now) × (N.plan ≡ plan_of plan.now) }
    requires plan { IsPlanOf (design_of design.now) (plan_of plan.now) }
{
    let mut out = String::new(alloc);
    let graph = Graph::new(alloc, design)?;
    let setup = Setup::<N>::new(alloc, design, &graph, plan)?;
    append_windows(alloc, &setup, steps, &mut out)?;
    Ok(out)
}

/// The same with a counter of its own.
fn counted_text<L: Ledger>(
    alloc: Global,
    design: &Design,
    plan: &Plan,
    blank: Blank,
) -> Result<String, NoMemory>
    requires plan { IsPlanOf (design_of design.now) (plan_of plan.now) }
    requires name { blank.name ≡ L.name }
    requires parts { blank.parts ≡ L.parts }
{
    let (_book, share) = blank.open::<L>();
    let mut steps = Steps::new(share);
    world_text::<Brand, L>(alloc, design, plan, &mut steps)
}

/// The lines on the windows of a design and a plan over it.
pub fn run_text(alloc: Global, design: &Design, plan: &Plan) -> Result<String, NoMemory>
    requires { IsPlanOf (design_of design.now) (plan_of plan.now) }
{
    counted_text::<Brand>(alloc, design, plan, Blank::new(1))
}
