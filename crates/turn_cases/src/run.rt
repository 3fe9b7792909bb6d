// The shards of a plan's faults, through all windows of the good first run.

ghost use Rattle.std.specs.Prelude.{◌≡◌, ◌<◌, ◌≤◌, true, All, IfOk, OnOk, length, map};
ghost use Rattle.vf_base.specs.Base.{fault_number};
ghost use Rattle.v_design.specs.PlainDesigns.{design_of, plan_of};
ghost use Rattle.v_design.specs.WellFormed.{IsPlanOf};

use crate::turns::{Alike, take_turns};
use good_trace::Setup;
use good_windows::{GoodRun, NextWindow};
use net_graph::Graph;
use shard_turns::{Shard, ShardRoom};
use std::alloc::Global;
use std::fmt::Write;
use std::marker::Brand;
use std::sync::ledger::{Blank, Ledger};
use v_design::{Design, Plan, World};
use vf_base::{FaultId, NoMemory, Steps};

/// So many faults make a shard.
const SHARD: usize = 32;

/// The most windows through which a shard goes here.
const MOST_WINDOWS: u32 = 1_000;

/// A shard behind the window that came, or as it was where none came.
#[derive(Drop)]
struct Beside<N: World> {
    shard: Shard<N>,
    over: bool,
}

/// Takes the turns of a shard in the round of the next window, if one comes.
fn next_turns<'d, N: World, L: Ledger>(
    alloc: Global,
    setup: &Setup<'d, N>,
    run: &mut GoodRun<'_, 'd, N>,
    room: &mut ShardRoom<'d, N>,
    shard: Shard<N>,
    alike: &mut Alike,
    steps: &mut Steps<L>,
) -> Result<Beside<N>, NoMemory>
    requires usable { run.old.usable ≡ true }
    requires at { shard.gone ≡ run.old.gone }
    ensures usable { OnOk result (run.new.usable ≡ true) }
    ensures at { IfOk result (λ beside. beside.shard.gone ≡ run.new.gone) }
{
    match run.next_window(None, steps)? {
        NextWindow::Window(window) => {
            let shard = take_turns(alloc, setup, &window, room, shard, alike, steps)?;
            Ok(Beside { shard, over: false })
        }
        NextWindow::Over | NextWindow::Loops(_) => Ok(Beside { shard, over: true }),
    }
}

/// Takes the turns of a shard in all rounds.
fn go_through<'d, N: World, L: Ledger>(
    alloc: Global,
    setup: &Setup<'d, N>,
    shard: Shard<N>,
    alike: &mut Alike,
    steps: &mut Steps<L>,
) -> Result<Shard<N>, NoMemory>
    requires { shard.gone ≡ 0 }
{
    let mut run = GoodRun::new(alloc, setup)?;
    let mut room = ShardRoom::new(alloc);
    let mut shard = shard;
    'windows: for _ in 0..MOST_WINDOWS {
        let beside = next_turns(alloc, setup, &mut run, &mut room, shard, alike, steps)?;
        shard = beside.shard;
        if beside.over {
            return Ok(shard);
        }
    }
    Ok(shard)
}

/// The faults of these places.
fn faults_from(alloc: Global, first: usize, last: usize) -> Result<Vec<FaultId>, NoMemory>
    requires { last ≤ 4294967295 }
    ensures { IfOk result (λ faults. All (λ number. number < last) (map fault_number faults.items)) }
{
    let mut faults = Vec::new(alloc);
    'places: for place in first..last {
        faults.push(FaultId(place as u32))?;
    }
    Ok(faults)
}

/// Takes the turns of a shard of the faults of these places, and answers on how many of them there is a finding at the end.
fn found_in<N: World, L: Ledger>(
    alloc: Global,
    setup: &Setup<'_, N>,
    first: usize,
    last: usize,
    alike: &mut Alike,
    steps: &mut Steps<L>,
) -> Result<usize, NoMemory>
    requires few { last ≤ 4294967295 }
    requires listed { last ≤ length N.plan.faults }
{
    let faults = faults_from(alloc, first, last)?;
    let shard = Shard::new(alloc, setup, &faults)?;
    let behind = go_through(alloc, setup, shard, alike, steps)?;
    Ok(behind.findings(alloc)?.len())
}

/// Adds the lines on the turns of all shards.
fn append_turns<N: World, L: Ledger>(
    alloc: Global,
    setup: &Setup<'_, N>,
    count: usize,
    steps: &mut Steps<L>,
    out: &mut String,
) -> Result<(), NoMemory>
    requires few { count ≤ 4294967295 }
    requires listed { count ≤ length N.plan.faults }
{
    let mut alike = Alike::default();
    let mut shards = 0u32;
    let mut found = 0usize;
    'shards: for number in 0..(count + 31) / SHARD {
        let first = number * SHARD;
        let last = count.min(first + SHARD);
        let more = found_in(alloc, setup, first, last, &mut alike, steps)?;
        shards = shards.saturating_add(1);
        found = found.saturating_add(more);
    }
    let Alike {
        turns,
        done,
        older,
        none,
    } = alike;
    writeln!(out, "{shards} shards, {turns} turns")?;
    writeln!(out, "{done} alike with a copy behind the window")?;
    writeln!(out, "{older} alike with a copy before it")?;
    writeln!(out, "{none} alike with none")?;
    writeln!(out, "{found} findings")?;
    Ok(())
}

/// The lines on the turns in a world, which names the design and the plan.
fn world_text<N: World, L: Ledger>(
    alloc: Global,
    design: &Design,
    plan: &Plan,
    steps: &mut Steps<L>,
) -> Result<String, NoMemory>
    requires world { (N.design ≡ design_of design.now) × (N.plan ≡ plan_of plan.now) }
    requires plan { IsPlanOf (design_of design.now) (plan_of plan.now) }
{
    let mut out = String::new(alloc);
    let graph = Graph::new(alloc, design)?;
    let setup = Setup::<N>::new(alloc, design, &graph, plan)?;
    let count = plan.faults.as_slice().len().min(u32::MAX as usize);
    append_turns(alloc, &setup, count, steps, &mut out)?;
    Ok(out)
}

/// The same with a counter of its own.
fn counted_text<L: Ledger>(
    alloc: Global,
    design: &Design,
    plan: &Plan,
    blank: Blank,
) -> Result<String, NoMemory>
    requires plan { IsPlanOf (design_of design.now) (plan_of plan.now) }
    requires name { blank.name ≡ L.name }
    requires parts { blank.parts ≡ L.parts }
{
    let (_book, share) = blank.open::<L>();
    let mut steps = Steps::new(share);
    world_text::<Brand, L>(alloc, design, plan, &mut steps)
}

/// The lines on the turns of the shards of a plan's faults over a design.
pub fn run_text(alloc: Global, design: &Design, plan: &Plan) -> Result<String, NoMemory>
    requires { IsPlanOf (design_of design.now) (plan_of plan.now) }
{
    counted_text::<Brand>(alloc, design, plan, Blank::new(1))
}
