// The queue of turns.

ghost use Rattle.std.specs.Prelude.{◌≡◌, ◌<◌, ◌↔◌, [], length, map, OnOk, OnErr, IfOk, IsNone, IsTrue, Some};
ghost use Rattle.std.specs.Option.{option_map};
ghost use Rattle.vf_base.specs.Base.{process_number};
ghost use Rattle.vf_base.specs.Lists.{AllHold, change_at};
ghost use Rattle.v_design.specs.Plain.{due_of, update_of};
ghost use Rattle.v_design.specs.States.{some_in, is_due};
ghost use Rattle.event_queue.specs.Queues.{HeldProcess, is_postponed, repeated, nothing_held, held_at, with_holding};
ghost use Rattle.event_queue.specs.Queues.{with_later, with_laters, with_updates, held_with, ComesAfter, HoldsNothing, next_time, next_region, released, held_after};
ghost use Rattle.event_queue.specs.Arranged.{processes_where, wakes_at, TakesPostponed, TakesLanes};
ghost use Rattle.event_queue.specs.declared.held.Holding.TheVariants as Holding;
ghost use Rattle.event_queue.specs.Regions.{turn_region};

use crate::calendar::{Lanes, Sleepers, add_sleeper, add_update, earlier, first_time, put_process};
use crate::held::{Held, Holding};
use crate::processes::{
    clear_all, clear_updates, drop_each, free_each, hold, holding_of, push_update, reserve_update,
    updates_of,
};
use crate::region::Region;
use crate::removals::{remove_lanes, remove_process, remove_sleeper};
use std::alloc::Global;
use std::collections::BTreeMap;
use std::marker::Model;
use std::mem;
use v_design::{Due, Update};
use vf_base::{NoMemory, ProcId, Seq};

/// The processes and updates that later turns activate, which contracts see as what is held of each process, by the processes' numbers.
#[derive(Drop)]
pub struct Queue {
    alloc: Global,
    processes: Vec<Held>,
    postponed: Seq<ProcId>,
    sleepers: Sleepers,
    lanes: Lanes,
}

impl Model for Queue {
    ghost use Rattle.std.specs.Prelude.{List};
    ghost use Rattle.event_queue.specs.Queues.{HeldProcess};

    ghost Value = { List HeldProcess };

    ghost use Rattle.event_queue.specs.Arranged.{held_by_process, IsArranged};

    ghost view = { λ q. held_by_process q.processes.items };

    ghost invariant = { λ q. IsArranged (held_by_process q.processes.items) q.postponed q.sleepers q.lanes };
}

impl Queue {
    /// A queue for a number of processes, of which none is held.
    pub fn new(alloc: Global, processes: u32) -> Result<Queue, NoMemory>
        ensures { IfOk result (λ queue. queue ≡ repeated nothing_held processes) }
    {
        let mut held = Vec::new(alloc);
        for _ in 0..processes {
            held.push(Held {
                holding: Holding::Free,
                later: Vec::new(alloc),
            })?;
        }
        Ok(Queue {
            alloc,
            processes: held,
            postponed: Seq::from_vec(Vec::new(alloc)),
            sleepers: BTreeMap::new(alloc),
            lanes: BTreeMap::new(alloc),
        })
    }

    /// Lets go of all processes, and of their updates.
    pub fn clear(&mut self)
        ensures { self.new ≡ repeated nothing_held (length self.old) }
    {
        clear_all(&mut self.processes);
        self.postponed = Seq::from_vec(Vec::new(self.alloc));
        self.sleepers = BTreeMap::new(self.alloc);
        self.lanes = BTreeMap::new(self.alloc);
    }

    /// The nonblocking updates of a process that are pending, in the order of their appends.
    pub fn updates(&self, process: ProcId) -> &[Due]
        requires { process_number process < length self.now }
        ensures { map due_of result.now ≡ (held_at self.now (process_number process)).later }
    {
        updates_of(&self.processes, process)
    }

    /// Lets a process sleep until a time, in steps.
    pub fn sleep(&mut self, process: ProcId, time: u64) -> Result<(), NoMemory>
        requires number { process_number process < length self.old }
        requires free { (held_at self.old (process_number process)).holding ≡ Holding.Free }
        ensures ok { OnOk result (self.new ≡ change_at self.old (process_number process) (with_holding (Holding.Asleep time))) }
        ensures err { OnErr result (self.new ≡ self.old) }
    {
        add_sleeper(self.alloc, &mut self.sleepers, time, process)?;
        hold(&mut self.processes, process, Holding::Asleep(time));
        Ok(())
    }

    /// Postpones a process by a delay of 0.
    pub fn postpone(&mut self, process: ProcId) -> Result<(), NoMemory>
        requires number { process_number process < length self.old }
        requires free { (held_at self.old (process_number process)).holding ≡ Holding.Free }
        ensures ok { OnOk result (self.new ≡ change_at self.old (process_number process) (with_holding Holding.Postponed)) }
        ensures err { OnErr result (self.new ≡ self.old) }
    {
        put_process(self.alloc, &mut self.postponed, process)?;
        hold(&mut self.processes, process, Holding::Postponed);
        Ok(())
    }

    /// Appends a nonblocking update of a process that is due at a time, in steps.
    pub fn schedule_update(
        &mut self,
        process: ProcId,
        time: u64,
        update: Update,
    ) -> Result<(), NoMemory>
        requires { process_number process < length self.old }
        ensures ok { OnOk result (self.new ≡ change_at self.old (process_number process) (with_later (record { time = time; update = update_of update }))) }
        ensures err { OnErr result (self.new ≡ self.old) }
    {
        reserve_update(&mut self.processes, process)?;
        add_update(self.alloc, &mut self.lanes, time, process, &update)?;
        push_update(&mut self.processes, process, Due { time, update });
        Ok(())
    }

    /// Appends nonblocking updates of a process, in order.
    ///
    /// # Errors
    ///
    /// Want of memory; what is held of the process is then not told.
    pub fn schedule_updates(&mut self, process: ProcId, updates: &[Due]) -> Result<(), NoMemory>
        requires { process_number process < length self.old }
        ensures { OnOk result (self.new ≡ change_at self.old (process_number process) (with_laters (map due_of updates.now))) }
    {
        'updates: for due in updates {
            self.schedule_update(process, due.time, due.update)?;
        }
        Ok(())
    }

    /// A process has these nonblocking updates in the place of its own, in the order of their appends. It is held as it was.
    ///
    /// # Errors
    ///
    /// Want of memory; what is held of the process is then not told.
    pub fn put_updates(&mut self, process: ProcId, updates: &[Due]) -> Result<(), NoMemory>
        requires { process_number process < length self.old }
        ensures { OnOk result (self.new ≡ change_at self.old (process_number process) (with_updates (map due_of updates.now))) }
    {
        self.drop_updates(process);
        self.schedule_updates(process, updates)
    }

    /// A process is held so, with these nonblocking updates, in the order of their appends, whatever was held of it before. All others stay as they are.
    ///
    /// # Errors
    ///
    /// Want of memory; what is held of the process is then not told.
    pub fn replace(
        &mut self,
        process: ProcId,
        holding: Holding,
        updates: &[Due],
    ) -> Result<(), NoMemory>
        requires { process_number process < length self.old }
        ensures { OnOk result (self.new ≡ change_at self.old (process_number process) (λ (old : HeldProcess). held_with holding (map due_of updates.now))) }
    {
        self.put_updates(process, updates)?;
        self.put_holding(process, holding)
    }

    /// How a process is held.
    fn holding(&self, process: ProcId) -> Holding
        requires { process_number process < length self.now }
        ensures { result ≡ (held_at self.now (process_number process)).holding }
    {
        holding_of(&self.processes, process)
    }

    /// Lets go of the updates of a process.
    fn drop_updates(&mut self, process: ProcId)
        requires { process_number process < length self.old }
        ensures { self.new ≡ change_at self.old (process_number process) (with_updates []) }
    {
        let updates = updates_of(&self.processes, process);
        remove_lanes(self.alloc, &mut self.lanes, process, updates);
        clear_updates(&mut self.processes, process);
    }

    /// Lets go of a process that sleeps until a time.
    fn release_sleeper(&mut self, process: ProcId, time: u64)
        requires number { process_number process < length self.old }
        requires asleep { (held_at self.old (process_number process)).holding ≡ Holding.Asleep time }
        ensures { self.new ≡ change_at self.old (process_number process) (with_holding Holding.Free) }
    {
        remove_sleeper(self.alloc, &mut self.sleepers, time, process);
        hold(&mut self.processes, process, Holding::Free);
    }

    /// Lets go of a process that is postponed.
    fn release_postponed(&mut self, process: ProcId)
        requires number { process_number process < length self.old }
        requires postponed { (held_at self.old (process_number process)).holding ≡ Holding.Postponed }
        ensures { self.new ≡ change_at self.old (process_number process) (with_holding Holding.Free) }
    {
        remove_process(self.alloc, &mut self.postponed, process);
        hold(&mut self.processes, process, Holding::Free);
    }

    /// Lets go of a process, whose updates stay.
    fn release(&mut self, process: ProcId)
        requires { process_number process < length self.old }
        ensures { self.new ≡ change_at self.old (process_number process) (with_holding Holding.Free) }
    {
        match self.holding(process) {
            Holding::Free => {}
            Holding::Asleep(time) => self.release_sleeper(process, time),
            Holding::Postponed => self.release_postponed(process),
        }
    }

    /// Whether a process is held so.
    fn is_held(&self, process: ProcId, holding: Holding) -> bool
        requires { process_number process < length self.now }
        ensures { IsTrue result → (held_at self.now (process_number process)).holding ≡ holding }
    {
        self.holding(process) == holding
    }

    /// Holds a process so that isn't held. Its updates stay.
    fn hold_free(&mut self, process: ProcId, holding: Holding) -> Result<(), NoMemory>
        requires number { process_number process < length self.old }
        requires free { (held_at self.old (process_number process)).holding ≡ Holding.Free }
        ensures { OnOk result (self.new ≡ change_at self.old (process_number process) (with_holding holding)) }
    {
        match holding {
            Holding::Asleep(time) => self.sleep(process, time),
            Holding::Postponed => self.postpone(process),
            Holding::Free => Ok(()),
        }
    }

    /// Holds a process so, whatever held it before. Its updates stay.
    fn put_holding(&mut self, process: ProcId, holding: Holding) -> Result<(), NoMemory>
        requires { process_number process < length self.old }
        ensures { OnOk result (self.new ≡ change_at self.old (process_number process) (with_holding holding)) }
    {
        if self.is_held(process, holding) {
            return Ok(());
        }
        self.release(process);
        self.hold_free(process, holding)
    }

    /// The least time at which a process that is held asleep wakes or an update that is held is due; `None` where there is no such time.
    pub fn next_time(&self) -> Option<u64>
        ensures { result ≡ next_time self.now }
    {
        earlier(first_time(&self.sleepers), first_time(&self.lanes))
    }

    /// Whether a process is postponed.
    pub fn has_postponed(&self) -> bool
        ensures { result ≡ some_in (λ (h : HeldProcess). is_postponed h.holding) self.now }
    {
        !self.postponed.as_slice().is_empty()
    }

    /// Whether an update is due now.
    pub fn has_due(&self, now: u64) -> bool
        requires { AllHold (ComesAfter now) self.now }
        ensures { result ≡ some_in (λ (h : HeldProcess). some_in (is_due now) h.later) self.now }
    {
        self.lanes.contains_key(&now)
    }

    /// Takes what the next turn activates; `None` where nothing is held.
    pub fn take_region(&mut self, now: u64) -> Option<Region>
        requires { AllHold (ComesAfter now) self.old }
        ensures turn { option_map turn_region result ≡ next_region now self.old }
        ensures left { self.new ≡ held_after now self.old }
        ensures none { IsNone result ↔ AllHold HoldsNothing self.old }
    {
        if let Some(processes) = self.take_postponed() {
            return Some(Region {
                time: now,
                processes,
                lanes: Seq::from_vec(Vec::new(self.alloc)),
            });
        }
        if let Some(lanes) = self.take_lanes(now) {
            return Some(Region {
                time: now,
                processes: Seq::from_vec(Vec::new(self.alloc)),
                lanes,
            });
        }
        let time = self.next_time()?;
        Some(Region {
            time,
            processes: self.take_sleepers(time),
            lanes: Seq::from_vec(Vec::new(self.alloc)),
        })
    }

    /// Takes the processes that are postponed, if there are any.
    fn take_postponed(&mut self) -> Option<Seq<ProcId>>
        ensures { TakesPostponed self.old result self.new }
    {
        if self.postponed.as_slice().is_empty() {
            return None;
        }
        let processes = mem::replace(&mut self.postponed, Seq::from_vec(Vec::new(self.alloc)));
        free_each(&mut self.processes, processes.as_slice());
        Some(processes)
    }

    /// Takes the lanes of the updates that are due at just this time, if there are any.
    fn take_lanes(&mut self, time: u64) -> Option<Seq<(ProcId, Seq<Update>)>>
        ensures { TakesLanes time self.old result self.new }
    {
        let lanes = self.lanes.remove(&time)?;
        drop_each(&mut self.processes, lanes.as_slice(), time);
        Some(lanes)
    }

    /// Takes the processes that wake at just this time.
    fn take_sleepers(&mut self, time: u64) -> Seq<ProcId>
        ensures taken { result ≡ processes_where (wakes_at time) self.old }
        ensures left { self.new ≡ released (wakes_at time) self.old }
    {
        let Some(processes) = self.sleepers.remove(&time) else {
            return Seq::from_vec(Vec::new(self.alloc));
        };
        free_each(&mut self.processes, processes.as_slice());
        processes
    }
}
