// The own values of a copy.

ghost use Rattle.std.specs.Prelude.{◌≡◌, [], Some, length, map, option_map, IfSome, OnOk, OnErr, IfOk};
ghost use Rattle.vf_base.specs.Base.{object_number};
ghost use Rattle.v_design.specs.States.{found_or};
ghost use Rattle.copy_laws.specs.Differences.{own_of, Ascend};
ghost use Rattle.copy_state.specs.Entries.{with_entry, without_entry, first_from};
ghost use Rattle.copy_state.specs.Listed.{entry_of};

use crate::entry::{Entry, HeldValue};
use crate::few_values::FewValues;
use crate::value_table::ValueTable;
use four_value::Vec4;
use std::alloc::Global;
use std::marker::Model;
use vf_base::NoMemory;

/// How many values stand in a list before they go into a table.
const MOST_LISTED: usize = 1024;

/// A list of values, or a table of them by object.
#[derive(Drop)]
pub(crate) enum HeldValues {
    Few(FewValues),
    Many(ValueTable),
}

/// Values by object, of which contracts see each with its object's number, in ascending order. A few are a list; where there are many they are a table, so
/// that no value costs a pass over the others.
#[derive(Drop)]
pub(crate) struct ByObject {
    alloc: Global,
    held: HeldValues,
}

impl Model for ByObject {
    ghost use Rattle.std.specs.Prelude.{ℕ, List};
    ghost use Rattle.four_value.specs.Values.{LogicValue};
    ghost use Rattle.copy_state.specs.Held.{entries_held};

    ghost Value = { List (ℕ × LogicValue) };

    ghost view = { λ own. entries_held own.held };
}

impl ByObject {
    /// No values. It takes no memory.
    pub(crate) fn new(alloc: Global) -> ByObject
        ensures { result ≡ [] }
    {
        ByObject {
            alloc,
            held: HeldValues::Few(FewValues::new(alloc)),
        }
    }

    /// The value of an object; another one where it has none.
    pub(crate) fn value_or(&self, object: u32, other: Vec4) -> Vec4
        ensures { result ≡ found_or other (own_of self.now object) }
    {
        match &self.held {
            HeldValues::Few(few) => few.value_or(object, other),
            HeldValues::Many(table) => table.value_or(object, other),
        }
    }

    /// Puts a value under an object, in place of an old one.
    pub(crate) fn put(&mut self, object: u32, value: Vec4) -> Result<(), NoMemory>
        ensures ok { OnOk result (self.new ≡ with_entry object value self.old) }
        ensures err { OnErr result (self.new ≡ self.old) }
    {
        self.spread()?;
        match &mut self.held {
            HeldValues::Few(few) => few.put(object, value)?,
            HeldValues::Many(table) => table.put(object, value)?,
        }
        Ok(())
    }

    /// Takes the value of an object out, if there is one.
    pub(crate) fn take_out(&mut self, object: u32)
        ensures { self.new ≡ without_entry object self.old }
    {
        match &mut self.held {
            HeldValues::Few(few) => few.take_out(object),
            HeldValues::Many(table) => table.take_out(object),
        }
    }

    /// Where the list is long, makes a table of it.
    fn spread(&mut self) -> Result<(), NoMemory>
        ensures { self.new ≡ self.old }
    {
        let table = match &self.held {
            HeldValues::Few(few) if few.size() >= MOST_LISTED => few.table(self.alloc)?,
            _ => return Ok(()),
        };
        self.held = HeldValues::Many(table);
        Ok(())
    }

    /// The first object that isn't before one and has a value.
    pub(crate) fn next(&self, from: u32) -> Option<u32>
        ensures { result ≡ first_from from self.now }
    {
        match &self.held {
            HeldValues::Few(few) => few.next(from),
            HeldValues::Many(table) => table.next(from),
        }
    }

    /// The first object that isn't before one and has a value, with that. The hint is of the object found before.
    pub(crate) fn next_held(&self, from: u32, hint: usize) -> Option<HeldValue>
        ensures next { option_map (λ held. object_number held.object) result ≡ first_from from self.now }
        ensures value { IfSome result (λ held. own_of self.now (object_number held.object) ≡ Some held.value) }
    {
        match &self.held {
            HeldValues::Few(few) => few.next_held(from, hint),
            HeldValues::Many(table) => table.next_held(from),
        }
    }

    /// All values in ascending order, where they are held as a list.
    pub(crate) fn listed(&self) -> Option<&[Entry<Vec4>]>
        ensures { IfSome result (λ listed. map entry_of listed.now ≡ self.now) }
    {
        match &self.held {
            HeldValues::Few(few) => Some(few.listed()),
            HeldValues::Many(_) => None,
        }
    }

    /// How many objects have a value.
    pub(crate) fn size(&self) -> usize
        ensures { result ≡ length self.now }
    {
        match &self.held {
            HeldValues::Few(few) => few.size(),
            HeldValues::Many(table) => table.size(),
        }
    }

    /// The same values once more.
    pub(crate) fn copied(&self) -> Result<ByObject, NoMemory>
        ensures { IfOk result (λ copy. copy ≡ self.now) }
    {
        let held = match &self.held {
            HeldValues::Few(few) => HeldValues::Few(few.copied(self.alloc)?),
            HeldValues::Many(table) => HeldValues::Many(table.copied(self.alloc)?),
        };
        Ok(ByObject {
            alloc: self.alloc,
            held,
        })
    }

    /// The objects ascend, each once.
    pub(crate) fn ascending(&self)
        ensures { Ascend self.now }
    {
        match &self.held {
            HeldValues::Few(few) => few.ascending(),
            HeldValues::Many(table) => table.ascending(),
        }
    }
}
