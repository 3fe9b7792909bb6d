// The index.

ghost use Rattle.std.specs.Prelude.{◌≡◌, ◌+◌, ◌<◌, ◌^◌, [], ◌∷◌, ◌++◌, ℕ, List, map, length, get_or, replicate, vec_len, IfOk};
ghost use Rattle.vf_base.specs.Base.{object_number, process_number};
ghost use Rattle.v_design.specs.PlainDesigns.{design_of};
ghost use Rattle.wait_index.specs.Waits.{IsIndexOf};
ghost use Rattle.wait_index.specs.Index.{process_lists};
ghost use Rattle.wait_index.specs.Tables.{WaitersAdded};

use crate::waited::add_statement;
use std::alloc::Global;
use std::marker::Model;
use v_design::Design;
use vf_base::{NoMemory, ObjectId, ProcId};

/// For each object of a design the processes that may wait on it, which contracts see as lists of processes by object.
#[derive(Drop)]
pub struct WaitIndex {
    waiters: Vec<Vec<ProcId>>,
}

impl Model for WaitIndex {
    ghost use Rattle.std.specs.Prelude.{ℕ, List};
    ghost use Rattle.wait_index.specs.Index.{process_lists};

    ghost Value = { List (List ℕ) };

    ghost view = { λ w. process_lists w.waiters.items };
}

impl WaitIndex {
    /// The index of a design. It goes through the text of each process once.
    ///
    /// # Errors
    ///
    /// Want of memory.
    pub fn new(alloc: Global, design: &Design) -> Result<WaitIndex, NoMemory>
        ensures { IfOk result (λ index. IsIndexOf (design_of design.now) index) }
    {
        let count = design.objects.as_slice().len();
        let mut seen = vec![in alloc; 0u32; count]?;
        let mut waiters = empty_lists(alloc, count)?;
        let mut objects = Vec::new(alloc);
        'processes: for (number, process) in design.processes.as_slice().iter().enumerate() {
            objects.clear();
            add_statement(&process.body, &mut objects)?;
            add_waiters(&objects, ProcId(number as u32), &mut seen, &mut waiters)?;
        }
        Ok(WaitIndex { waiters })
    }

    /// The processes that may wait on an object, ascending and each once: those whose body has an entry of an event control on it, or a `wait` whose
    /// condition names it.
    pub fn of(&self, object: ObjectId) -> &[ProcId]
        requires { object_number object < length self.now }
        ensures { map process_number result.now ≡ get_or self.now (object_number object) [] }
    {
        &self.waiters[object.0 as usize]
    }
}

/// So many empty lists.
fn empty_lists(alloc: Global, count: usize) -> Result<Vec<Vec<ProcId>>, NoMemory>
    ensures { IfOk result (λ lists. process_lists lists.items ≡ replicate count []) }
{
    let mut lists = Vec::new(alloc);
    'lists: for _ in 0..count {
        lists.push(Vec::new(alloc))?;
    }
    Ok(lists)
}

/// Puts a process into the list of an object, if the object is there and the process isn't in the list yet. What was seen is kept as the
/// process's number and one.
fn add_waiter(
    object: ObjectId,
    process: ProcId,
    seen: &mut Vec<u32>,
    waiters: &mut Vec<Vec<ProcId>>,
) -> Result<(), NoMemory>
    requires is_process { process_number process + 1 < 2 ^ 32 }
    requires alike { vec_len seen.old ≡ vec_len waiters.old }
    ensures added { IfOk result (λ _. (taken : List ℕ) (before : List (List ℕ)) →
        WaitersAdded (process_number process) taken before seen.old.items (process_lists waiters.old.items) →
        WaitersAdded (process_number process) (taken ++ object_number object ∷ []) before seen.new.items (process_lists waiters.new.items)) }
    ensures alike { IfOk result (λ _. vec_len seen.new ≡ vec_len waiters.new) }
{
    let at = object.0 as usize;
    let stamp = process.0 + 1;
    if at >= waiters.len() {
        return Ok(());
    }
    if seen[at] == stamp {
        return Ok(());
    }
    waiters[at].push(process)?;
    seen[at] = stamp;
    Ok(())
}

/// Puts a process into the lists of some objects.
fn add_waiters(
    objects: &[ObjectId],
    process: ProcId,
    seen: &mut Vec<u32>,
    waiters: &mut Vec<Vec<ProcId>>,
) -> Result<(), NoMemory>
    requires is_process { process_number process + 1 < 2 ^ 32 }
    requires alike { vec_len seen.old ≡ vec_len waiters.old }
    ensures added { IfOk result (λ _. (before : List (List ℕ)) →
        WaitersAdded (process_number process) [] before seen.old.items (process_lists waiters.old.items) →
        WaitersAdded (process_number process) (map object_number objects.now) before seen.new.items (process_lists waiters.new.items)) }
    ensures alike { IfOk result (λ _. vec_len seen.new ≡ vec_len waiters.new) }
{
    'objects: for object in objects {
        add_waiter(*object, process, seen, waiters)?;
    }
    Ok(())
}
