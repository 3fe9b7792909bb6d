// A faulty machine as its differences from the good one.

ghost use Rattle.std.specs.Prelude.{◌≡◌, Some, length, map, option_map, IfOk, IfSome, OnOk, OnErr};
ghost use Rattle.vf_base.specs.Base.{object_number, process_number, fault_number};
ghost use Rattle.v_design.specs.Plain.{due_of};
ghost use Rattle.v_design.specs.States.{found_or};
ghost use Rattle.copy_laws.specs.Differences.{own_of, Ascend};
ghost use Rattle.copy_state.specs.Copied.{KeepsSame};
ghost use Rattle.copy_state.specs.Entries.{with_entry, without_entry, first_from};
ghost use Rattle.copy_state.specs.Listed.{entry_of};
ghost use Rattle.copy_state.specs.Kept.{nothing_kept, with_own_value, StandsIn};

use crate::by_object::ByObject;
use crate::by_process::{ByProcess, copied_states, copied_updates};
use crate::entry::{Entry, HeldValue};
use four_value::Vec4;
use process_code::ProcState;
use std::alloc::Global;
use std::marker::Model;
use v_design::Due;
use vf_base::{FaultId, NoMemory, ObjectId, ProcId, Seq};

/// What a faulty machine has otherwise than the good one, which contracts see as the place of its fault in the plan, its values by object, and its states and
/// updates by process.
#[derive(Drop)]
pub struct FaultCopy {
    fault: FaultId,
    values: ByObject,
    states: ByProcess<ProcState>,
    updates: ByProcess<Seq<Due>>,
}

impl Model for FaultCopy {
    ghost use Rattle.vf_base.specs.Base.{fault_number};
    ghost use Rattle.copy_state.specs.Kept.{CopyKept, updates_of};

    ghost Value = { CopyKept };

    ghost view = { λ copy. record { fault = fault_number copy.fault; values = copy.values; states = copy.states; updates = updates_of copy.updates } };
}

impl FaultCopy {
    /// The copy of a fault that keeps nothing. It takes no memory.
    pub fn new(alloc: Global, fault: FaultId) -> FaultCopy
        ensures { result ≡ nothing_kept (fault_number fault) }
    {
        FaultCopy {
            fault,
            values: ByObject::new(alloc),
            states: ByProcess::new(alloc),
            updates: ByProcess::new(alloc),
        }
    }

    /// The fault, by its place in the plan.
    pub fn fault(&self) -> FaultId
        ensures { fault_number result ≡ self.now.fault }
    {
        self.fault
    }

    /// The value of an object whose good value is given.
    pub fn value(&self, object: ObjectId, good: Vec4) -> Vec4
        ensures { result ≡ found_or good (own_of self.now.values (object_number object)) }
    {
        self.values.value_or(object.0, good)
    }

    /// Gives an object a value; one that is the good value isn't kept.
    ///
    /// # Errors
    ///
    /// Want of memory. The copy is unchanged then.
    pub fn set(&mut self, object: ObjectId, good: Vec4, own: Vec4) -> Result<(), NoMemory>
        requires { length good ≡ length own }
        ensures ok { OnOk result (self.new ≡ record self.old { values = with_own_value (object_number object) good own self.old.values }) }
        ensures err { OnErr result (self.new ≡ self.old) }
    {
        if good.same(own) {
            self.values.take_out(object.0);
            return Ok(());
        }
        self.values.put(object.0, own)
    }

    /// The first object that isn't before one and has an own value.
    pub fn next_value(&self, from: ObjectId) -> Option<ObjectId>
        ensures { option_map object_number result ≡ first_from (object_number from) self.now.values }
    {
        match self.values.next(from.0) {
            None => None,
            Some(object) => Some(ObjectId(object)),
        }
    }

    /// The first object that isn't before one and has an own value, with that. With the hint of the object that was found before the next one takes no search; any other hint serves too.
    pub fn next_held(&self, from: ObjectId, hint: usize) -> Option<HeldValue>
        ensures next { option_map (λ held. object_number held.object) result ≡ first_from (object_number from) self.now.values }
        ensures value { IfSome result (λ held. own_of self.now.values (object_number held.object) ≡ Some held.value) }
    {
        self.values.next_held(from.0, hint)
    }

    /// All own values, each with its object's number, in ascending order: where they are held as a list. Many are held as a table, which isn't one.
    pub fn listed(&self) -> Option<&[Entry<Vec4>]>
        ensures { IfSome result (λ listed. map entry_of listed.now ≡ self.now.values) }
    {
        self.values.listed()
    }

    /// How many objects differ.
    pub fn size(&self) -> usize
        ensures { result ≡ length self.now.values }
    {
        self.values.size()
    }

    /// The state that the copy keeps for a process, if it keeps one.
    pub fn process(&self, process: ProcId) -> Option<&ProcState>
        ensures { option_map (λ own. own.now) result ≡ own_of self.now.states (process_number process) }
    {
        self.states.get(process)
    }

    /// The first process that isn't before one and of which a state is kept.
    pub fn next_state(&self, from: ProcId) -> Option<ProcId>
        ensures { option_map process_number result ≡ first_from (process_number from) self.now.states }
    {
        self.states.next(from)
    }

    /// The copy keeps a state for a process.
    ///
    /// # Errors
    ///
    /// Want of memory. The copy is unchanged then.
    pub fn split(&mut self, process: ProcId, state: ProcState) -> Result<(), NoMemory>
        ensures ok { OnOk result (self.new ≡ record self.old { states = with_entry (process_number process) state self.old.states }) }
        ensures err { OnErr result (self.new ≡ self.old) }
    {
        self.states.put(process, state)?;
        Ok(())
    }

    /// The copy keeps no state for a process.
    pub fn rejoin(&mut self, process: ProcId)
        ensures { self.new ≡ record self.old { states = without_entry (process_number process) self.old.states } }
    {
        self.states.take_out(process);
    }

    /// A process stands in a state, which is kept where the process does otherwise in it than in the good machine's.
    ///
    /// # Errors
    ///
    /// Want of memory. The copy is unchanged then.
    pub fn stand(
        &mut self,
        process: ProcId,
        good: &ProcState,
        own: ProcState,
    ) -> Result<(), NoMemory>
        ensures ok { OnOk result (StandsIn (process_number process) good.now own self.old self.new) }
        ensures err { OnErr result (self.new ≡ self.old) }
    {
        if good.same(&own) {
            self.rejoin(process);
            return Ok(());
        }
        self.split(process, own)?;
        Ok(())
    }

    /// The updates that the copy keeps for a process, if it keeps some.
    pub fn updates(&self, process: ProcId) -> Option<&[Due]>
        ensures { option_map (λ own. map due_of own.now) result ≡ own_of self.now.updates (process_number process) }
    {
        match self.updates.get(process) {
            None => None,
            Some(own) => Some(own.as_slice()),
        }
    }

    /// The first process that isn't before one and of which updates are kept.
    pub fn next_updates(&self, from: ProcId) -> Option<ProcId>
        ensures { option_map process_number result ≡ first_from (process_number from) self.now.updates }
    {
        self.updates.next(from)
    }

    /// The copy keeps these as a process's updates, in order.
    ///
    /// # Errors
    ///
    /// Want of memory. The copy is unchanged then.
    pub fn hold_updates(&mut self, process: ProcId, own: Vec<Due>) -> Result<(), NoMemory>
        ensures ok { OnOk result (self.new ≡ record self.old { updates = with_entry (process_number process) (map due_of own.items) self.old.updates }) }
        ensures err { OnErr result (self.new ≡ self.old) }
    {
        self.updates.put(process, Seq::from_vec(own))?;
        Ok(())
    }

    /// The copy keeps no updates for a process.
    pub fn drop_updates(&mut self, process: ProcId)
        ensures { self.new ≡ record self.old { updates = without_entry (process_number process) self.old.updates } }
    {
        self.updates.take_out(process);
    }

    /// The same copy once more.
    ///
    /// # Errors
    ///
    /// Want of memory.
    pub fn copied(&self, alloc: Global) -> Result<FaultCopy, NoMemory>
        ensures { IfOk result (KeepsSame self.now) }
    {
        let values = self.values.copied()?;
        let states = copied_states(alloc, &self.states)?;
        let updates = copied_updates(alloc, &self.updates)?;
        Ok(FaultCopy {
            fault: self.fault,
            values,
            states,
            updates,
        })
    }

    /// What is kept ascends, each object and process once.
    pub fn ascending(&self)
        ensures values { Ascend self.now.values }
        ensures states { Ascend self.now.states }
        ensures updates { Ascend self.now.updates }
    {
        self.values.ascending();
        self.states.ascending();
        self.updates.ascending();
    }
}
