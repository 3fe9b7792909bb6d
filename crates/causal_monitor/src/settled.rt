// The wild net pieces that a change settles.

ghost use Rattle.std.specs.Prelude.{◌≡◌, ℕ, ◌<◌, ◌&&◌, ◌++◌, [], ◌∷◌, false, map, filter, length, vec_len, get_or, IfOk, OnOk};
ghost use Rattle.vf_base.specs.Base.{object_number};
ghost use Rattle.vf_base.specs.Lists.{has};
ghost use Rattle.v_design.specs.Paths.{paths, net_pieces, is_wild};
ghost use Rattle.v_design.specs.Logs.{phase_changes};
ghost use Rattle.v_design.specs.PlainDesigns.{design_of};
ghost use Rattle.net_graph.specs.Tables.{before_if, object_lists};
ghost use Rattle.net_graph.specs.ConeLaws.{ReachSome};
ghost use Rattle.causal_monitor.specs.Changes.{CountChanges, AreTotals, AreSettled, ReachesNone, settled_nets};

use crate::log::PhaseLog;
use crate::totals::is_wild_net;
use net_graph::{Graph, Marks};
use std::alloc::Global;
use v_design::Design;
use vf_base::{NoMemory, ObjectId};

/// One more object of a list, where it is wanted.
fn push_if(wanted: bool, object: ObjectId, list: &mut Vec<ObjectId>) -> Result<(), NoMemory>
    ensures { IfOk result (λ _. map object_number list.new.items ≡ map object_number list.old.items ++ before_if wanted (object_number object) []) }
{
    if wanted {
        list.push(object)?;
    }
    Ok(())
}

/// The net pieces that are wild in a phase, in ascending order.
fn fill_wild(
    design: &Design,
    log: &PhaseLog,
    totals: &Vec<u8>,
    nets: &mut Vec<ObjectId>,
) -> Result<(), NoMemory>
    requires sized { vec_len totals.now ≡ length (design_of design.now).objects }
    requires totals { AreTotals (design_of design.now) (phase_changes (design_of design.now) log.now.log) totals.now.items }
    ensures { OnOk result (map object_number nets.new.items ≡ filter (is_wild (design_of design.now) (phase_changes (design_of design.now) log.now.log)) (net_pieces (design_of design.now))) }
{
    nets.clear();
    'objects: for number in 0..totals.len() {
        let object = ObjectId(number as u32);
        let wanted = is_wild_net(design, log, totals, object);
        push_if(wanted, object, nets)?;
    }
    Ok(())
}

/// The wild net pieces to which a path leads from an object, in ascending order.
fn fill_reached<'d>(
    graph: &Graph<'d>,
    log: &PhaseLog,
    wild: &[ObjectId],
    from: ObjectId,
    marks: &mut Marks<'d>,
    nets: &mut Vec<ObjectId>,
) -> Result<(), NoMemory>
    requires from { object_number from < length (design_of graph.now.design.now).objects }
    requires wild { map object_number wild.now ≡ filter (is_wild (design_of graph.now.design.now) (phase_changes
        (design_of graph.now.design.now) log.now.log)) (net_pieces (design_of graph.now.design.now)) }
    requires belongs { marks.old.design.now ≡ graph.now.design.now }
    ensures nets { OnOk result (map object_number nets.new.items ≡ settled_nets (design_of graph.now.design.now) (phase_changes (design_of graph.now.design.now) log.now.log) (object_number from)) }
    ensures belongs { marks.new.design.now ≡ graph.now.design.now }
{
    nets.clear();
    'nets: for net in wild {
        let wanted = graph.paths(from, *net, marks) > 0;
        push_if(wanted, *net, nets)?;
    }
    Ok(())
}

/// The wild net pieces that a change of an object settles, if it changed and reaches one.
fn fill_reached_if<'d>(
    graph: &Graph<'d>,
    log: &PhaseLog,
    wild: &[ObjectId],
    from: ObjectId,
    count: u8,
    reaches: bool,
    marks: &mut Marks<'d>,
    nets: &mut Vec<ObjectId>,
) -> Result<(), NoMemory>
    requires from { object_number from < length (design_of graph.now.design.now).objects }
    requires wild { map object_number wild.now ≡ filter (is_wild (design_of graph.now.design.now) (phase_changes
        (design_of graph.now.design.now) log.now.log)) (net_pieces (design_of graph.now.design.now)) }
    requires belongs { marks.old.design.now ≡ graph.now.design.now }
    requires reaches { reaches ≡ false → ReachesNone (design_of graph.now.design.now) (object_number from) (map object_number wild.now) }
    ensures nets { OnOk result (0 < count → map object_number nets.new.items ≡ settled_nets (design_of graph.now.design.now) (phase_changes
        (design_of graph.now.design.now) log.now.log) (object_number from)) }
    ensures belongs { marks.new.design.now ≡ graph.now.design.now }
{
    if count == 0 {
        return Ok(());
    }
    if !reaches {
        nets.clear();
        return Ok(());
    }
    fill_reached(graph, log, wild, from, marks, nets)?;
    Ok(())
}

/// As many lists as there are objects, whatever they hold.
fn fit_lists(alloc: Global, lists: &mut Vec<Vec<ObjectId>>, objects: usize) -> Result<(), NoMemory>
    ensures { OnOk result (vec_len lists.new ≡ objects) }
{
    lists.truncate(objects);
    'more: while lists.len() < objects {
        lists.push(Vec::new(alloc))?;
    }
    Ok(())
}

/// Removes all net pieces from the lists.
fn clear_lists(lists: &mut Vec<Vec<ObjectId>>)
    ensures empty { (object : ℕ) → get_or (object_lists lists.new.items) object [] ≡ [] }
    ensures same { vec_len lists.new ≡ vec_len lists.old }
{
    'lists: for at in 0..lists.len() {
        lists[at].clear();
    }
}

/// For each object that changed the wild net pieces that its change settles, where the objects are marked that reach one.
fn settle_each<'d>(
    graph: &Graph<'d>,
    log: &PhaseLog,
    counts: &Vec<u8>,
    wild: &[ObjectId],
    reaching: &[bool],
    marks: &mut Marks<'d>,
    lists: &mut Vec<Vec<ObjectId>>,
) -> Result<(), NoMemory>
    requires counts { CountChanges (phase_changes (design_of graph.now.design.now) log.now.log) counts.now.items }
    requires counts_sized { vec_len counts.now ≡ length (design_of graph.now.design.now).objects }
    requires wild { map object_number wild.now ≡ filter (is_wild (design_of graph.now.design.now) (phase_changes
        (design_of graph.now.design.now) log.now.log)) (net_pieces (design_of graph.now.design.now)) }
    requires reaching_sized { length reaching.now ≡ length (design_of graph.now.design.now).objects }
    requires reaching { ReachSome (design_of graph.now.design.now) (map object_number wild.now) reaching.now }
    requires belongs { marks.old.design.now ≡ graph.now.design.now }
    requires sized { vec_len lists.old ≡ length (design_of graph.now.design.now).objects }
    ensures count { OnOk result (vec_len lists.new ≡ length (design_of graph.now.design.now).objects) }
    ensures settled { OnOk result (AreSettled (design_of graph.now.design.now) (phase_changes (design_of graph.now.design.now) log.now.log) lists.new.items) }
{
    'objects: for (number, count) in counts.iter().enumerate() {
        let from = ObjectId(number as u32);
        let reaches = reaching[number];
        fill_reached_if(
            graph,
            log,
            wild,
            from,
            *count,
            reaches,
            marks,
            &mut lists[number],
        )?;
    }
    Ok(())
}

/// For each object that changed the wild net pieces that its change settles. `wild` is room for all wild net pieces.
pub(crate) fn fill_settled(
    alloc: Global,
    graph: &Graph,
    log: &PhaseLog,
    counts: &Vec<u8>,
    totals: &Vec<u8>,
    wild: &mut Vec<ObjectId>,
    lists: &mut Vec<Vec<ObjectId>>,
) -> Result<(), NoMemory>
    requires counts { CountChanges (phase_changes (design_of graph.now.design.now) log.now.log) counts.now.items }
    requires counts_sized { vec_len counts.now ≡ length (design_of graph.now.design.now).objects }
    requires sized { vec_len totals.now ≡ length (design_of graph.now.design.now).objects }
    requires totals { AreTotals (design_of graph.now.design.now) (phase_changes (design_of graph.now.design.now) log.now.log) totals.now.items }
    ensures count { OnOk result (vec_len lists.new ≡ length (design_of graph.now.design.now).objects) }
    ensures settled { OnOk result (AreSettled (design_of graph.now.design.now) (phase_changes (design_of graph.now.design.now) log.now.log) lists.new.items) }
{
    fill_wild(graph.design, log, totals, wild)?;
    fit_lists(alloc, lists, totals.len())?;
    if wild.is_empty() {
        clear_lists(lists);
        return Ok(());
    }
    let reaching = graph.reaching(alloc, wild)?;
    let mut marks = Marks::new(alloc, graph)?;
    settle_each(graph, log, counts, wild, &reaching, &mut marks, lists)?;
    Ok(())
}
