// What a copy keeps of processes.

ghost use Rattle.std.specs.Prelude.{◌≡◌, [], map, IfOk, OnOk, OnErr, option_map};
ghost use Rattle.std.specs.List.{AllZip};
ghost use Rattle.vf_base.specs.Base.{process_number};
ghost use Rattle.copy_laws.specs.Differences.{own_of, Ascend};
ghost use Rattle.copy_state.specs.Copied.{IsSameState};
ghost use Rattle.copy_state.specs.Entries.{with_entry, without_entry, first_from};
ghost use Rattle.copy_state.specs.Listed.{entry_of};

use crate::entry::Entry;
use crate::find::{count_before, find};
use process_code::ProcState;
use std::alloc::Global;
use std::marker::Model;
use v_design::Due;
use vf_base::{NoMemory, ProcId, Seq};

/// Something of each of some processes, in ascending order, which contracts see with the process's number.
#[derive(Drop)]
pub struct ByProcess<T> {
    entries: Vec<Entry<T>>,
}

impl<T> Model for ByProcess<T> {
    ghost use Rattle.std.specs.Prelude.{ℕ, List, map};
    ghost use Rattle.copy_state.specs.Entries.{Rise};
    ghost use Rattle.copy_state.specs.Listed.{entry_of, numbers_of};

    ghost Value = { List (ℕ × T) };

    ghost view = { λ own. map entry_of own.entries.items };

    ghost invariant = { λ own. Rise (numbers_of own.entries.items) };
}

impl<T: Drop> ByProcess<T> {
    /// Nothing. It takes no memory.
    pub fn new(alloc: Global) -> ByProcess<T>
        ensures { result ≡ [] }
    {
        ByProcess {
            entries: Vec::new(alloc),
        }
    }

    /// What is kept of a process.
    pub fn get(&self, process: ProcId) -> Option<&T>
        ensures { option_map (λ own. own.now) result ≡ own_of self.now (process_number process) }
    {
        match find(&self.entries, process.0) {
            Ok(place) => Some(&self.entries[place].kept),
            Err(_) => None,
        }
    }

    /// Puts something under a process, in place of what was kept.
    ///
    /// # Errors
    ///
    /// Want of memory. What is kept is unchanged then.
    pub fn put(&mut self, process: ProcId, kept: T) -> Result<(), NoMemory>
        ensures ok { OnOk result (self.new ≡ with_entry (process_number process) kept self.old) }
        ensures err { OnErr result (self.new ≡ self.old) }
    {
        match find(&self.entries, process.0) {
            Ok(place) => {
                self.entries[place].kept = kept;
            }
            Err(place) => {
                self.entries.insert(
                    place,
                    Entry {
                        number: process.0,
                        kept,
                    },
                )?;
            }
        }
        Ok(())
    }

    /// Takes out what is kept of a process, if there is something.
    pub fn take_out(&mut self, process: ProcId)
        ensures { self.new ≡ without_entry (process_number process) self.old }
    {
        if let Ok(place) = find(&self.entries, process.0) {
            self.entries.remove(place);
        }
    }

    /// Takes everything out.
    pub fn clear(&mut self)
        ensures { self.new ≡ [] }
    {
        self.entries.clear();
    }

    /// The first process that isn't before one and of which something is kept.
    pub fn next(&self, from: ProcId) -> Option<ProcId>
        ensures { option_map process_number result ≡ first_from (process_number from) self.now }
    {
        let place = count_before(&self.entries, from.0);
        if place < self.entries.len() {
            return Some(ProcId(self.entries[place].number));
        }
        None
    }

    /// The processes ascend, each once.
    pub fn ascending(&self)
        ensures { Ascend self.now }
    {
        let _count = self.entries.len();
    }
}

/// A process's state once more.
fn copied_state(alloc: Global, own: &Entry<ProcState>) -> Result<Entry<ProcState>, NoMemory>
    ensures { IfOk result (λ copy. IsSameState (entry_of own.now) (entry_of copy)) }
{
    let kept = own.kept.copy(alloc)?;
    Ok(Entry {
        number: own.number,
        kept,
    })
}

/// The states of the same processes once more.
pub(crate) fn copied_states(
    alloc: Global,
    states: &ByProcess<ProcState>,
) -> Result<ByProcess<ProcState>, NoMemory>
    ensures { IfOk result (λ copy. AllZip IsSameState states.now copy) }
{
    let mut entries = Vec::with_capacity(alloc, states.entries.len())?;
    'processes: for own in states.entries.as_slice() {
        let copy = copied_state(alloc, own)?;
        entries.push(copy)?;
    }
    Ok(ByProcess { entries })
}

/// A process's updates once more.
fn copied_due(alloc: Global, own: &Entry<Seq<Due>>) -> Result<Entry<Seq<Due>>, NoMemory>
    ensures { IfOk result (λ copy. copy ≡ own.now) }
{
    let due = Vec::from_slice(alloc, own.kept.as_slice())?;
    Ok(Entry {
        number: own.number,
        kept: Seq::from_vec(due),
    })
}

/// The updates of the same processes once more.
pub(crate) fn copied_updates(
    alloc: Global,
    updates: &ByProcess<Seq<Due>>,
) -> Result<ByProcess<Seq<Due>>, NoMemory>
    ensures { IfOk result (λ copy. copy ≡ updates.now) }
{
    let mut entries = Vec::with_capacity(alloc, updates.entries.len())?;
    'processes: for own in updates.entries.as_slice() {
        let copy = copied_due(alloc, own)?;
        entries.push(copy)?;
    }
    Ok(ByProcess { entries })
}
