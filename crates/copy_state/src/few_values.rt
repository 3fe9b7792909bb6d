// A few own values.

ghost use Rattle.std.specs.Prelude.{◌≡◌, [], Some, map, length, option_map, IfSome, OnOk, OnErr, IfOk};
ghost use Rattle.vf_base.specs.Base.{object_number};
ghost use Rattle.v_design.specs.States.{found_or};
ghost use Rattle.copy_laws.specs.Differences.{own_of, Ascend};
ghost use Rattle.copy_state.specs.Entries.{with_entry, without_entry, first_from};
ghost use Rattle.copy_state.specs.Listed.{entry_of};

use crate::entry::{Entry, HeldValue};
use crate::find::{count_before, count_near, find};
use crate::value_table::ValueTable;
use four_value::Vec4;
use smallvec::SmallVec;
use std::alloc::Global;
use std::marker::Model;
use vf_base::{NoMemory, ObjectId};

/// A list of values by object, in ascending order, of which contracts see each with its object's number.
#[derive(Drop)]
pub(crate) struct FewValues {
    values: SmallVec<Entry<Vec4>, 4>,
}

impl Model for FewValues {
    ghost use Rattle.std.specs.Prelude.{ℕ, List, map};
    ghost use Rattle.four_value.specs.Values.{LogicValue};
    ghost use Rattle.copy_state.specs.Entries.{Rise};
    ghost use Rattle.copy_state.specs.Listed.{entry_of, numbers_of};

    ghost Value = { List (ℕ × LogicValue) };

    ghost view = { λ own. map entry_of own.values.items };

    ghost invariant = { λ own. Rise (numbers_of own.values.items) };
}

impl FewValues {
    /// No values. It takes no memory.
    pub(crate) fn new(alloc: Global) -> FewValues
        ensures { result ≡ [] }
    {
        FewValues {
            values: SmallVec::new(alloc),
        }
    }

    /// The value of an object; another one where it has none.
    pub(crate) fn value_or(&self, object: u32, other: Vec4) -> Vec4
        ensures { result ≡ found_or other (own_of self.now object) }
    {
        let values = self.values.as_slice();
        match find(values, object) {
            Ok(place) => values[place].kept,
            Err(_) => other,
        }
    }

    /// Puts a value under an object, in place of an old one.
    pub(crate) fn put(&mut self, object: u32, value: Vec4) -> Result<(), NoMemory>
        ensures ok { OnOk result (self.new ≡ with_entry object value self.old) }
        ensures err { OnErr result (self.new ≡ self.old) }
    {
        match find(self.values.as_slice(), object) {
            Ok(place) => {
                self.values.as_mut_slice()[place].kept = value;
            }
            Err(place) => {
                self.values.insert(
                    place,
                    Entry {
                        number: object,
                        kept: value,
                    },
                )?;
            }
        }
        Ok(())
    }

    /// Takes the value of an object out, if there is one.
    pub(crate) fn take_out(&mut self, object: u32)
        ensures { self.new ≡ without_entry object self.old }
    {
        if let Ok(place) = find(self.values.as_slice(), object) {
            self.values.remove(place);
        }
    }

    /// The first object that isn't before one and has a value.
    pub(crate) fn next(&self, from: u32) -> Option<u32>
        ensures { result ≡ first_from from self.now }
    {
        let values = self.values.as_slice();
        let place = count_before(values, from);
        if place < values.len() {
            return Some(values[place].number);
        }
        None
    }

    /// The first object that isn't before one and has a value, with that. The hint is of the object found before.
    pub(crate) fn next_held(&self, from: u32, hint: usize) -> Option<HeldValue>
        ensures next { option_map (λ held. object_number held.object) result ≡ first_from from self.now }
        ensures value { IfSome result (λ held. own_of self.now (object_number held.object) ≡ Some held.value) }
    {
        let values = self.values.as_slice();
        let place = count_near(values, from, hint);
        if place < values.len() {
            let entry = values[place];
            return Some(HeldValue {
                object: ObjectId(entry.number),
                value: entry.kept,
                hint: place + 1,
            });
        }
        None
    }

    /// All values in ascending order.
    pub(crate) fn listed(&self) -> &[Entry<Vec4>]
        ensures { map entry_of result.now ≡ self.now }
    {
        self.values.as_slice()
    }

    /// How many objects have a value.
    pub(crate) fn size(&self) -> usize
        ensures { result ≡ length self.now }
    {
        self.values.len()
    }

    /// The objects ascend, each once.
    pub(crate) fn ascending(&self)
        ensures { Ascend self.now }
    {
        let _count = self.values.len();
    }

    /// The same values once more.
    pub(crate) fn copied(&self, alloc: Global) -> Result<FewValues, NoMemory>
        ensures { IfOk result (λ copy. copy ≡ self.now) }
    {
        let values = SmallVec::from_slice(alloc, self.values.as_slice())?;
        Ok(FewValues { values })
    }

    /// The same values as a table.
    pub(crate) fn table(&self, alloc: Global) -> Result<ValueTable, NoMemory>
        ensures { IfOk result (λ table. table ≡ self.now) }
    {
        let mut table = ValueTable::new(alloc);
        'values: for own in self.values.as_slice() {
            table.put(own.number, own.kept)?;
        }
        Ok(table)
    }
}
