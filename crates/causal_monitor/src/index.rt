// The accesses of a phase with what finds a conflict fast.

ghost use Rattle.std.specs.Prelude.{◌≡◌, ◌<◌, map, length, vec_len, replicate, OnOk};
ghost use Rattle.std.specs.List.{All};
ghost use Rattle.v_design.specs.Logs.{log_accesses};
ghost use Rattle.v_design.specs.PlainDesigns.{design_of};
ghost use Rattle.causal_monitor.specs.Counted.{phase_access, IsNumbered, numbered_object};
ghost use Rattle.causal_monitor.specs.Links.{AreLinks, group_against};
ghost use Rattle.causal_monitor.specs.Notes.{noted_access};
ghost use Rattle.causal_monitor.specs.Phases.{IsLogOf};
ghost use Rattle.causal_monitor.specs.Index.{IsIndexed, IsIndexFor};

use crate::accesses::fill_numbered;
use crate::changes::count_changes;
use crate::group::{Group, group_against};
use crate::links::fill_links;
use crate::log::PhaseLog;
use crate::noted::Noted;
use crate::numbered::Numbered;
use crate::order::fill_jumps;
use crate::settled::fill_settled;
use crate::totals::add_up;
use net_graph::Graph;
use std::alloc::Global;
use vf_base::{NoMemory, ObjectId};

/// The accesses of a phase in their order, jumps from event to event, and links from each access to the latest earlier one of its object: to any, to the
/// latest that writes or settles it, and to the latest that looks at it.
#[derive(Drop)]
pub(crate) struct AccessIndex {
    pub accesses: Vec<Numbered>,
    pub jumps: Vec<u64>,
    pub all: Vec<Option<usize>>,
    pub changes: Vec<Option<usize>>,
    pub looks: Vec<Option<usize>>,
}

/// The tables that an index is made from: by object how often it changed, the paths from all changes to it, the wild net pieces that its change settles and
/// its latest access, the wild net pieces, and by event how many causes lie before it.
#[derive(Drop)]
pub(crate) struct Tables {
    pub counts: Vec<u8>,
    pub totals: Vec<u8>,
    pub wild: Vec<ObjectId>,
    pub settled: Vec<Vec<ObjectId>>,
    pub latest: Vec<Option<usize>>,
    pub depths: Vec<u64>,
}

/// The index of a phase, with room for marking the accesses that each earlier one of their object orders.
#[derive(Drop)]
pub struct CheckIndex {
    alloc: Global,
    pub(crate) index: AccessIndex,
    pub(crate) chained: Vec<bool>,
    tables: Tables,
}

/// The links to the accesses with which an access may conflict.
pub(crate) fn links_against<'a>(
    log: &PhaseLog,
    index: &'a AccessIndex,
    noted: &Noted,
) -> &'a Vec<Option<usize>>
    requires { IsIndexed log.now.log index.now }
    ensures count { vec_len result.now ≡ length index.now.accesses.items }
    ensures links { AreLinks (group_against (noted_access noted.now).act) (map phase_access index.now.accesses.items) result.now.items }
{
    match group_against(noted) {
        Group::All => &index.all,
        Group::Changes => &index.changes,
        Group::Looks => &index.looks,
    }
}

/// Fills a table with so many zeros.
fn fill_zeros(table: &mut Vec<u8>, count: usize) -> Result<(), NoMemory>
    ensures { OnOk result (table.new.items ≡ replicate count 0) }
{
    table.clear();
    table.resize(count, 0)?;
    Ok(())
}

/// No access is marked, of so many.
fn fill_unmarked(marks: &mut Vec<bool>, count: usize) -> Result<(), NoMemory>
    ensures { OnOk result (vec_len marks.new ≡ count) }
{
    marks.clear();
    marks.resize(count, false)?;
    Ok(())
}

/// The accesses of a phase in their order, by the changes that were noted and the graph of the design.
fn fill_accesses(
    alloc: Global,
    log: &PhaseLog,
    graph: &Graph,
    tables: &mut Tables,
    list: &mut Vec<Numbered>,
) -> Result<(), NoMemory>
    requires { IsLogOf (design_of graph.now.design.now) log.now.log }
    ensures accesses { OnOk result (map phase_access list.new.items ≡ log_accesses (design_of graph.now.design.now) log.now.log) }
    ensures numbered { OnOk result (All (IsNumbered (length log.now.log.events)) list.new.items) }
    ensures objects { OnOk result (All (λ numbered. numbered_object numbered < length (design_of graph.now.design.now).objects) list.new.items) }
{
    let objects = graph.design.objects.as_slice().len();
    fill_zeros(&mut tables.counts, objects)?;
    count_changes(graph.design, log, &mut tables.counts);
    fill_zeros(&mut tables.totals, objects)?;
    add_up(graph, log, &tables.counts, &mut tables.totals);
    fill_settled(
        alloc,
        graph,
        log,
        &tables.counts,
        &tables.totals,
        &mut tables.wild,
        &mut tables.settled,
    )?;
    fill_numbered(graph.design, log, &tables.totals, &tables.settled, list)?;
    Ok(())
}

/// The jumps and the links of the accesses of a phase, which are of so many objects.
fn fill_links_of(
    log: &PhaseLog,
    objects: usize,
    tables: &mut Tables,
    index: &mut AccessIndex,
) -> Result<(), NoMemory>
    requires numbered { All (IsNumbered (length log.now.log.events)) index.old.accesses.items }
    requires objects { All (λ numbered. numbered_object numbered < objects) index.old.accesses.items }
    ensures same { OnOk result (index.new.accesses.items ≡ index.old.accesses.items) }
    ensures indexed { OnOk result (IsIndexed log.now.log index.new) }
{
    fill_jumps(log, &mut tables.depths, &mut index.jumps)?;
    let latest = &mut tables.latest;
    fill_links(&index.accesses, objects, Group::All, latest, &mut index.all)?;
    fill_links(
        &index.accesses,
        objects,
        Group::Changes,
        latest,
        &mut index.changes,
    )?;
    fill_links(
        &index.accesses,
        objects,
        Group::Looks,
        latest,
        &mut index.looks,
    )?;
    Ok(())
}

impl CheckIndex {
    /// An index of nothing yet, to be filled for phase after phase.
    pub fn new(alloc: Global) -> CheckIndex {
        CheckIndex {
            alloc,
            index: AccessIndex {
                accesses: Vec::new(alloc),
                jumps: Vec::new(alloc),
                all: Vec::new(alloc),
                changes: Vec::new(alloc),
                looks: Vec::new(alloc),
            },
            chained: Vec::new(alloc),
            tables: Tables {
                counts: Vec::new(alloc),
                totals: Vec::new(alloc),
                wild: Vec::new(alloc),
                settled: Vec::new(alloc),
                latest: Vec::new(alloc),
                depths: Vec::new(alloc),
            },
        }
    }

    /// Becomes the index of a phase of the graph's design, as its log now stands, in the memory that it has and whatever it held before.
    ///
    /// # Errors
    ///
    /// Want of memory; the index is then to be filled anew before it is used.
    pub fn fill(&mut self, log: &PhaseLog, graph: &Graph) -> Result<(), NoMemory>
        requires { IsLogOf (design_of graph.now.design.now) log.now.log }
        ensures { OnOk result (IsIndexFor (design_of graph.now.design.now) log.now.log self.new) }
    {
        let objects = graph.design.objects.as_slice().len();
        fill_accesses(
            self.alloc,
            log,
            graph,
            &mut self.tables,
            &mut self.index.accesses,
        )?;
        fill_links_of(log, objects, &mut self.tables, &mut self.index)?;
        fill_unmarked(&mut self.chained, self.index.accesses.len())?;
        Ok(())
    }
}
