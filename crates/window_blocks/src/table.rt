// With which events blocks begin, gathered from the logs of slots.

ghost use Rattle.std.specs.Prelude.{◌≡◌, ◌+◌, ◌++◌, [], ◌∷◌, map, length, IfOk, OnOk};
ghost use Rattle.v_design.specs.Laws.{place_if};
ghost use Rattle.slot_record.specs.Records.{event_of};
ghost use Rattle.window_blocks.specs.Gathered.{one_if, beginnings_from, firsts_from, slot_events, GathersBlocks, HasNoBlock};

use crate::place::{begins_block, greatest_after};
use causal_monitor::{Actor, SlotLog};
use std::alloc::Global;
use vf_base::{NoMemory, ProcId};

/// With which moments the blocks of some phases begin, in ascending order, and who acts in the first event of each; the moment at which each phase ends; and the moment of
/// the next event.
#[derive(Drop)]
pub struct BlockTable {
    pub moments: Vec<u32>,
    pub actors: Vec<Actor>,
    pub ends: Vec<u32>,
    pub moment: u32,
}

/// Puts a moment behind others, and who acts then, if a block begins there.
fn push_if(
    moments: &mut Vec<u32>,
    firsts: &mut Vec<Actor>,
    begins: bool,
    moment: u32,
    actor: Actor,
) -> Result<(), NoMemory>
    ensures moments { OnOk result (moments.new.items ≡ moments.old.items ++ place_if begins moment []) }
    ensures firsts { OnOk result (firsts.new.items ≡ firsts.old.items ++ one_if begins actor []) }
{
    if !begins {
        return Ok(());
    }
    moments.push(moment)?;
    firsts.push(actor)?;
    Ok(())
}

/// The moment after another.
fn next_moment(moment: u32) -> Result<u32, NoMemory>
    ensures { IfOk result (λ next. next ≡ moment + 1) }
{
    match moment.checked_add(1) {
        None => Err(NoMemory),
        Some(next) => Ok(next),
    }
}

/// Puts the moments with which the blocks of a phase begin behind others, and who acts then, where its first event has a moment. The answer is the moment at which it ends.
fn push_beginnings(
    moments: &mut Vec<u32>,
    firsts: &mut Vec<Actor>,
    first: u32,
    actors: &[Actor],
) -> Result<u32, NoMemory>
    ensures firsts { OnOk result (map event_of firsts.new.items ≡ map event_of firsts.old.items ++ firsts_from [] (map event_of actors.now)) }
    ensures moments { OnOk result (moments.new.items ≡ moments.old.items ++ beginnings_from [] first (map event_of actors.now)) }
    ensures end { IfOk result (λ end. end ≡ first + length actors.now) }
{
    let mut moment = first;
    let mut greatest: Option<ProcId> = None;
    'events: for actor in actors {
        let begins = begins_block(greatest, *actor);
        push_if(moments, firsts, begins, moment, *actor)?;
        greatest = greatest_after(greatest, *actor);
        moment = next_moment(moment)?;
    }
    Ok(moment)
}

impl BlockTable {
    /// The table of no phase.
    pub(crate) fn none(alloc: Global) -> BlockTable
        ensures { HasNoBlock result }
    {
        BlockTable {
            moments: Vec::new(alloc),
            actors: Vec::new(alloc),
            ends: Vec::new(alloc),
            moment: 0,
        }
    }

    /// Lets go all phases. The memory is used again.
    pub(crate) fn clear(&mut self)
        ensures { HasNoBlock self.new }
    {
        self.moments.clear();
        self.actors.clear();
        self.ends.clear();
        self.moment = 0;
    }

    /// Puts a phase at the end, in whose events these act.
    fn push_phase(&mut self, actors: &[Actor]) -> Result<(), NoMemory>
        ensures { OnOk result (GathersBlocks (map event_of actors.now ∷ []) self.old self.new) }
    {
        let first = self.moment;
        let end = push_beginnings(&mut self.moments, &mut self.actors, first, actors)?;
        self.ends.push(end)?;
        self.moment = end;
        Ok(())
    }

    /// Puts the phases of a slot at the end.
    ///
    /// # Errors
    ///
    /// Want of memory, or no further number of a moment. Nothing is said of the table then.
    pub(crate) fn push_slot(&mut self, log: &SlotLog) -> Result<(), NoMemory>
        ensures { OnOk result (GathersBlocks (slot_events log.now) self.old self.new) }
    {
        let phases = log.actors.as_slice();
        'phases: for actors in phases {
            self.push_phase(actors.as_slice())?;
        }
        Ok(())
    }
}
