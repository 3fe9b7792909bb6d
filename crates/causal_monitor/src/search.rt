// The least pair of conflicting accesses of a phase.

ghost use Rattle.std.specs.Prelude.{◌≡◌, ◌+◌, ◌<◌, true, [], length, vec_len};
ghost use Rattle.std.specs.Option.{ForSome, option_map};
ghost use Rattle.vf_base.specs.Base.{reported_pair};
ghost use Rattle.v_design.specs.Logs.{conflict, least_pair, least_pair_from};
ghost use Rattle.v_design.specs.Grades.{race_of};
ghost use Rattle.v_design.specs.PlainDesigns.{design_of};
ghost use Rattle.causal_monitor.specs.Links.{IsFirst, IsChained, AreChained, access_at};
ghost use Rattle.causal_monitor.specs.Index.{IsIndexed, IsIndexFor, indexed_accesses};

use crate::conflict::access_orders;
use crate::index::{AccessIndex, CheckIndex, links_against};
use crate::links::first_conflict;
use crate::log::PhaseLog;
use net_graph::Graph;
use vf_base::Pair;

/// Whether each earlier access of an access's object is known to order it: there is none, or the latest is so ordered itself and orders it.
fn is_chained(log: &PhaseLog, index: &AccessIndex, chained: &Vec<bool>, number: usize) -> bool
    requires indexed { IsIndexed log.now.log index.now }
    requires within { number < length index.now.accesses.items }
    requires room { vec_len chained.now ≡ length index.now.accesses.items }
    requires chained { AreChained log.now.log (indexed_accesses index.now) number chained.now.items }
    ensures { result ≡ true → IsChained log.now.log (indexed_accesses index.now) number }
{
    let Some(latest) = index.all[number] else {
        return true;
    };
    chained[latest]
        && access_orders(
            log,
            &index.jumps,
            &index.accesses[latest],
            &index.accesses[number],
        )
}

/// The place of the first access with which a later one conflicts. Where all earlier ones of its object order that one, none is looked at.
fn find_conflict(
    log: &PhaseLog,
    index: &AccessIndex,
    chained: &mut Vec<bool>,
    number: usize,
) -> Option<usize>
    requires indexed { IsIndexed log.now.log index.now }
    requires within { number < length index.now.accesses.items }
    requires room { vec_len chained.old ≡ length index.now.accesses.items }
    requires chained { AreChained log.now.log (indexed_accesses index.now) number chained.old.items }
    ensures first { IsFirst (λ place. conflict log.now.log (access_at (indexed_accesses index.now) place) (access_at (indexed_accesses index.now) number)) 0 number result }
    ensures chained { AreChained log.now.log (indexed_accesses index.now) (number + 1) chained.new.items }
    ensures room { vec_len chained.new ≡ vec_len chained.old }
{
    let all_order = is_chained(log, index, chained, number);
    chained[number] = all_order;
    if all_order {
        return None;
    }
    let links = links_against(log, index, &index.accesses[number].noted);
    first_conflict(log, &index.jumps, &index.accesses, links, number)
}

/// The places of the least pair of conflicting accesses.
fn least_places(
    log: &PhaseLog,
    index: &AccessIndex,
    chained: &mut Vec<bool>,
) -> Option<(usize, usize)>
    requires indexed { IsIndexed log.now.log index.now }
    requires room { vec_len chained.old ≡ length index.now.accesses.items }
    ensures pair { option_map (λ places. (
      access_at (indexed_accesses index.now) places.0,
      access_at
          (indexed_accesses index.now) places.1,
    )) result ≡ least_pair_from log.now.log [] (indexed_accesses index.now) }
    ensures first { ForSome result (λ places. places.0 < length index.now.accesses.items) }
    ensures second { ForSome result (λ places. places.1 < length index.now.accesses.items) }
    ensures room { vec_len chained.new ≡ vec_len chained.old }
{
    'accesses: for number in 0..index.accesses.len() {
        match find_conflict(log, index, chained, number) {
            Some(first) => return Some((first, number)),
            None => {}
        }
    }
    None
}

/// The least pair of conflicting accesses of a phase, `None` exactly where the phase has no conflict.
///
/// Two accesses of one object conflict where neither orders the other and they are a write with a read or a write, a changing write with a wait that it matches, or
/// a settling of a net piece with a read, a wait or a held entry. The pair has the least later access and, among these, the least earlier one.
/// The accesses are the held and the noted ones, without the writes of the net pieces that are wild by the phase's changes, and with the settlings of those pieces.
pub fn check(log: &PhaseLog, graph: &Graph, index: &mut CheckIndex) -> Option<Pair>
    requires { IsIndexFor (design_of graph.now.design.now) log.now.log index.old }
    ensures pair { option_map reported_pair result ≡ option_map (race_of log.now.time log.now.phase) (least_pair (design_of graph.now.design.now) log.now.log) }
    ensures kept { IsIndexFor (design_of graph.now.design.now) log.now.log index.new }
{
    let (first, second) = least_places(log, &index.index, &mut index.chained)?;
    Some(Pair {
        time: log.time(),
        phase: log.phase(),
        first: index.index.accesses[first].noted.access,
        second: index.index.accesses[second].noted.access,
    })
}
