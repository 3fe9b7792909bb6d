// A set of processes whose least member is at hand.

ghost use Rattle.std.specs.Prelude.{◌≡◌, ◌<◌, ◌≤◌, ◌^◌, Bool, true, false, ℕ, length, get_or, cond, IfOk};
ghost use Rattle.std.specs.Option.{option_map};
ghost use Rattle.vf_base.specs.Base.{process_number};
ghost use Rattle.vf_base.specs.Lists.{change_at, first_place};
ghost use Rattle.event_queue.specs.Queues.{repeated};
ghost use Rattle.process_table.specs.Sets.{IsLeastFrom};

use std::alloc::Global;
use std::marker::Model;
use vf_base::{NoMemory, ProcId};

/// A set of processes, which contracts see as whether each process is a member, by the processes' numbers.
#[derive(Drop)]
pub struct ProcessSet {
    members: Vec<bool>,
    /// The number of the least member; that of all processes where there is none.
    least: u32,
}

impl Model for ProcessSet {
    ghost use Rattle.std.specs.Prelude.{Bool, List};
    ghost use Rattle.process_table.specs.Sets.{IsSet};

    ghost Value = { List Bool };

    ghost view = { λ s. s.members.items };

    ghost invariant = { λ s. IsSet s.members.items s.least };
}

/// The number of the least member from a number on; that of all processes where there is none.
fn least_from(members: &[bool], from: u32) -> u32
    requires from { from ≤ length members.now }
    requires few { length members.now < 2 ^ 32 }
    ensures { IsLeastFrom members.now from result }
{
    let mut number = from;
    'members: while (number as usize) < members.len() {
        if members[number as usize] {
            return number;
        }
        number += 1;
    }
    number
}

/// Takes each process out.
fn clear_members(members: &mut Vec<bool>)
    ensures { members.new.items ≡ repeated false (length members.old.items) }
{
    'numbers: for number in 0..members.len() {
        members[number] = false;
    }
}

/// The least member of all of so many processes, or of none of them.
fn first_least(all: bool, count: u32) -> u32
    ensures { result ≡ cond all 0 count }
{
    if all { 0 } else { count }
}

impl ProcessSet {
    /// The set of all of so many processes, or of none of them.
    ///
    /// # Errors
    ///
    /// Want of memory.
    pub fn new(alloc: Global, count: u32, all: bool) -> Result<ProcessSet, NoMemory>
        ensures { IfOk result (λ set. set ≡ repeated all count) }
    {
        let mut members = Vec::with_capacity(alloc, count as usize)?;
        'members: for _ in 0..count {
            members.push(all)?;
        }
        let least = first_least(all, count);
        Ok(ProcessSet { members, least })
    }

    /// The member with the least number.
    pub fn first(&self) -> Option<ProcId>
        ensures { option_map process_number result ≡ first_place (λ (member : Bool). member) self.now }
    {
        if (self.least as usize) < self.members.len() {
            Some(ProcId(self.least))
        } else {
            None
        }
    }

    /// Whether a process is a member.
    pub fn contains(&self, process: ProcId) -> bool
        ensures { result ≡ get_or self.now (process_number process) false }
    {
        let number = process.0 as usize;
        if number >= self.members.len() {
            return false;
        }
        self.members[number]
    }

    /// Puts a process into the set.
    pub fn insert(&mut self, process: ProcId)
        requires { process_number process < length self.old }
        ensures { self.new ≡ change_at self.old (process_number process) (λ (member : Bool). true) }
    {
        self.members[process.0 as usize] = true;
        self.least = self.least.min(process.0);
    }

    /// Takes all processes out of the set.
    pub fn clear(&mut self)
        ensures { self.new ≡ repeated false (length self.old) }
    {
        clear_members(&mut self.members);
        self.least = self.members.len() as u32;
    }

    /// Takes a process out of the set.
    pub fn remove(&mut self, process: ProcId)
        requires { process_number process < length self.old }
        ensures { self.new ≡ change_at self.old (process_number process) (λ (member : Bool). false) }
    {
        self.members[process.0 as usize] = false;
        if process.0 == self.least {
            self.least = least_from(&self.members, self.least);
        }
    }
}
