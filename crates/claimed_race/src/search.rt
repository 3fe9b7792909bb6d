// The search for a claimed race in a phase.

ghost use Rattle.std.specs.Prelude.{◌≡◌, ◌<◌, length, option_map, IfOk};
ghost use Rattle.vf_base.specs.Base.{reported_pair};
ghost use Rattle.v_design.specs.Grades.{race_of};
ghost use Rattle.v_design.specs.Logs.{log_accesses};
ghost use Rattle.v_design.specs.PlainDesigns.{design_of};
ghost use Rattle.vf_base.specs.Lists.{AllHold};
ghost use Rattle.causal_monitor.specs.Index.{accesses_in, IsIndexOf, IsIndexFor};
ghost use Rattle.causal_monitor.specs.Links.{access_at};
ghost use Rattle.causal_monitor.specs.Phases.{IsLogOf};
ghost use Rattle.replay_laws.specs.Claimed.{first_pair};
ghost use Rattle.claimed_race.specs.Places.{pair_of_places, both_at};

use crate::pair::pair_of;
use crate::places::places_of;
use causal_monitor::{CheckIndex, PhaseLog};
use net_graph::Graph;
use std::alloc::Global;
use v_design::Design;
use vf_base::{NoMemory, Pair};

/// The pair of the accesses at two places, in the phase of a time and a number.
fn pair_at(index: &CheckIndex, time: u64, number: u32, earlier: usize, later: usize) -> Pair
    requires earlier { earlier < length (accesses_in index.now) }
    requires later { later < length (accesses_in index.now) }
    ensures { reported_pair result ≡ race_of time number (access_at (accesses_in index.now) earlier, access_at (accesses_in index.now) later) }
{
    Pair {
        time,
        phase: number,
        first: index.access(earlier),
        second: index.access(later),
    }
}

/// The pair of the first of some places and the first of others behind it, whose accesses conflict.
fn found_pair(
    log: &PhaseLog,
    index: &CheckIndex,
    time: u64,
    number: u32,
    firsts: &[usize],
    seconds: &[usize],
) -> Option<Pair>
    requires indexed { IsIndexOf log.now.log index.now }
    requires firsts { AllHold (λ place. place < length (accesses_in index.now)) firsts.now }
    requires seconds { AllHold (λ place. place < length (accesses_in index.now)) seconds.now }
    ensures { option_map reported_pair result ≡ option_map (λ places. race_of time number (both_at (accesses_in index.now) places))
        (pair_of_places log.now.log (accesses_in index.now) seconds.now firsts.now) }
{
    let (earlier, later) = pair_of(log, index, firsts, seconds)?;
    Some(pair_at(index, time, number, earlier, later))
}

/// The first pair of an indexed phase that conflicts and prints as two texts.
fn pair_in(
    alloc: Global,
    design: &Design,
    log: &PhaseLog,
    index: &CheckIndex,
    time: u64,
    number: u32,
    first: &[u8],
    second: &[u8],
) -> Result<Option<Pair>, NoMemory>
    requires { IsIndexFor (design_of design.now) log.now.log index.now }
    ensures { IfOk result (λ pair. option_map reported_pair pair ≡ option_map (race_of time number)
        (first_pair (design_of design.now) log.now.log first.now second.now (log_accesses (design_of design.now) log.now.log))) }
{
    let firsts = places_of(alloc, design, index, first)?;
    let seconds = places_of(alloc, design, index, second)?;
    Ok(found_pair(
        log,
        index,
        time,
        number,
        firsts.as_slice(),
        seconds.as_slice(),
    ))
}

/// The first pair of accesses of a phase of a design, in the order of its log, that conflict and of which the earlier one prints as `first` and the later one
/// as `second`; None exactly where the phase has no such pair. The pair has the given time, in steps, and the given number of the phase, from 1.
///
/// # Errors
///
/// Want of memory.
pub fn claimed_pair(
    alloc: Global,
    design: &Design,
    graph: &Graph,
    log: &PhaseLog,
    time: u64,
    number: u32,
    first: &[u8],
    second: &[u8],
) -> Result<Option<Pair>, NoMemory>
    requires graph { graph.now.design.now ≡ design.now }
    requires log { IsLogOf (design_of design.now) log.now.log }
    ensures { IfOk result (λ pair. option_map reported_pair pair ≡ option_map (race_of time number)
        (first_pair (design_of design.now) log.now.log first.now second.now (log_accesses (design_of design.now) log.now.log))) }
{
    let mut index = CheckIndex::new(alloc);
    index.fill(log, graph)?;
    pair_in(alloc, design, log, &index, time, number, first, second)
}
