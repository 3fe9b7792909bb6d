// What a queue holds of one process.

ghost use Rattle.std.specs.Prelude.{◌≡◌};

use v_design::Due;
use vf_base::NoMemory;

/// Whether a process is held: asleep until a time, postponed, or neither.
#[derive(Clone, Copy, PartialEq, Eq, Debug)]
pub enum Holding {
    Free,
    Asleep(u64),
    Postponed,
}

/// A process's holding, and its nonblocking updates in the order of their appends.
#[derive(Drop)]
pub struct Held {
    pub holding: Holding,
    pub later: Vec<Due>,
}

impl Held {
    ghost use Rattle.std.specs.Prelude.{◌≡◌, ◌<◌, [], OnOk, vec_len, vec_capacity};
    ghost use Rattle.v_design.specs.Plain.{due_of};
    ghost use Rattle.event_queue.specs.Queues.{nothing_held, with_holding, with_later, with_updates};
    ghost use Rattle.event_queue.specs.Arranged.{held_process, without_at};

    /// Holds the process so.
    pub fn hold(&mut self, holding: Holding)
        ensures { held_process self.new ≡ with_holding holding (held_process self.old) }
    {
        self.holding = holding;
    }

    /// Lets go of the process, and of its updates.
    pub fn clear(&mut self)
        ensures { held_process self.new ≡ nothing_held }
    {
        self.holding = Holding::Free;
        self.later.clear();
    }

    /// Lets go of the updates.
    pub fn clear_updates(&mut self)
        ensures { held_process self.new ≡ with_updates [] (held_process self.old) }
    {
        self.later.clear();
    }

    /// Appends an update. There is room for it.
    pub fn push(&mut self, due: Due)
        requires { vec_len self.old.later < vec_capacity self.old.later }
        ensures { held_process self.new ≡ with_later (due_of due) (held_process self.old) }
    {
        let _ = self.later.push(due);
    }

    /// Makes room for one more update.
    pub fn reserve(&mut self) -> Result<(), NoMemory>
        ensures room { OnOk result (vec_len self.new.later < vec_capacity self.new.later) }
        ensures same { held_process self.new ≡ held_process self.old }
    {
        self.later.reserve(1)?;
        Ok(())
    }

    /// Takes the updates that are due at just this time out of the list.
    pub fn drop_due(&mut self, time: u64)
        ensures { held_process self.new ≡ without_at time (held_process self.old) }
    {
        self.later.retain(|due| due.time != time);
    }
}
