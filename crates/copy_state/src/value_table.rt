// Many own values.

ghost use Rattle.std.specs.Prelude.{◌≡◌, ◌<◌, ◌≤◌, ◌^◌, [], Some, length, vec_len, option_map, IfOk, IfSome, OnOk, OnErr};
ghost use Rattle.vf_base.specs.Base.{object_number};
ghost use Rattle.v_design.specs.States.{found_or};
ghost use Rattle.copy_laws.specs.Differences.{own_of, Ascend};
ghost use Rattle.copy_state.specs.Entries.{with_entry, without_entry, first_from};
ghost use Rattle.copy_state.specs.Tables.{entries_from};

use crate::entry::HeldValue;
use four_value::Vec4;
use std::alloc::Global;
use std::marker::Model;
use vf_base::{NoMemory, ObjectId};

/// A table of values by object, of which contracts see each that is there with its object's number, in ascending order.
#[derive(Drop)]
pub(crate) struct ValueTable {
    values: Vec<Option<Vec4>>,
    count: usize,
}

impl Model for ValueTable {
    ghost use Rattle.std.specs.Prelude.{ℕ, List};
    ghost use Rattle.four_value.specs.Values.{LogicValue};
    ghost use Rattle.copy_state.specs.Tables.{entries_from, IsTable};

    ghost Value = { List (ℕ × LogicValue) };

    ghost view = { λ table. entries_from 0 table.values.items };

    ghost invariant = { λ table. IsTable table.values.items table.count };
}

/// Makes room in a table for an object.
fn reach(values: &mut Vec<Option<Vec4>>, object: u32) -> Result<(), NoMemory>
    ensures same { entries_from 0 values.new.items ≡ entries_from 0 values.old.items }
    ensures there { OnOk result (object < vec_len values.new) }
    ensures few { vec_len values.old ≤ 2 ^ 32 → vec_len values.new ≤ 2 ^ 32 }
{
    let place = object as usize;
    if place >= values.len() {
        values.resize(place + 1, None)?;
    }
    Ok(())
}

impl ValueTable {
    /// No values. It takes no memory.
    pub(crate) fn new(alloc: Global) -> ValueTable
        ensures { result ≡ [] }
    {
        ValueTable {
            values: Vec::new(alloc),
            count: 0,
        }
    }

    /// The value of an object; another one where it has none.
    pub(crate) fn value_or(&self, object: u32, other: Vec4) -> Vec4
        ensures { result ≡ found_or other (own_of self.now object) }
    {
        let place = object as usize;
        if place >= self.values.len() {
            return other;
        }
        match self.values[place] {
            None => other,
            Some(own) => own,
        }
    }

    /// Puts a value under an object, in place of an old one.
    pub(crate) fn put(&mut self, object: u32, value: Vec4) -> Result<(), NoMemory>
        ensures ok { OnOk result (self.new ≡ with_entry object value self.old) }
        ensures err { OnErr result (self.new ≡ self.old) }
    {
        reach(&mut self.values, object)?;
        let place = object as usize;
        if self.values[place].is_none() {
            self.count += 1;
        }
        self.values[place] = Some(value);
        Ok(())
    }

    /// Takes the value of an object out, if there is one.
    pub(crate) fn take_out(&mut self, object: u32)
        ensures { self.new ≡ without_entry object self.old }
    {
        let place = object as usize;
        if place < self.values.len() && self.values[place].is_some() {
            self.values[place] = None;
            self.count -= 1;
        }
    }

    /// The first object that isn't before one and has a value.
    pub(crate) fn next(&self, from: u32) -> Option<u32>
        ensures { result ≡ first_from from self.now }
    {
        'places: for place in from as usize..self.values.len() {
            if self.values[place].is_some() {
                return Some(place as u32);
            }
        }
        None
    }

    /// The first object that isn't before one and has a value, with that.
    pub(crate) fn next_held(&self, from: u32) -> Option<HeldValue>
        ensures next { option_map (λ held. object_number held.object) result ≡ first_from from self.now }
        ensures value { IfSome result (λ held. own_of self.now (object_number held.object) ≡ Some held.value) }
    {
        'places: for place in from as usize..self.values.len() {
            if let Some(value) = self.values[place] {
                return Some(HeldValue {
                    object: ObjectId(place as u32),
                    value,
                    hint: 0,
                });
            }
        }
        None
    }

    /// How many objects have a value.
    pub(crate) fn size(&self) -> usize
        ensures { result ≡ length self.now }
    {
        self.count
    }

    /// The same values once more.
    pub(crate) fn copied(&self, alloc: Global) -> Result<ValueTable, NoMemory>
        ensures { IfOk result (λ copy. copy ≡ self.now) }
    {
        let values = Vec::from_slice(alloc, &self.values)?;
        Ok(ValueTable {
            values,
            count: self.count,
        })
    }

    /// The objects ascend, each once.
    pub(crate) fn ascending(&self)
        ensures { Ascend self.now }
    {
        let _count = self.count;
    }
}
