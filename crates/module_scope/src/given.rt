// The parameters that an instance sets.

ghost use Rattle.std.specs.Prelude.{◌≡◌, ℕ, List, OnOk, IfOk, map};
ghost use Rattle.v_names.specs.Names.{given_of};
ghost use Rattle.module_scope.specs.Givens.{given_parameter, given_seen, given_first};

use crate::name_map::NameMap;
use four_value::Vec4;
use std::alloc::Global;
use v_names::Constant;
use vf_base::{NoMemory, Text};

/// A parameter that an instance sets: its name, the value in bits, and whether the value is signed.
#[derive(Drop)]
pub struct Given {
    pub name: Text,
    pub value: Vec4,
    pub signed: bool,
}

/// Keeps the value of a parameter, unless one of its name is kept.
fn keep_given<'g>(given: &'g Given, values: &mut NameMap<'g, Constant>) -> Result<(), NoMemory>
    ensures { OnOk result ((name : List ℕ) → given_of (given_seen values.new) name ≡ given_first (given_of (given_seen values.old) name) (given_parameter given.now) name) }
{
    match values.get(given.name.as_bytes()) {
        Some(_) => Ok(()),
        None => {
            let value = Constant {
                value: given.value,
                signed: given.signed,
            };
            values.put(given.name.as_bytes(), value)?;
            Ok(())
        }
    }
}

/// The values of the parameters that an instance sets, by their names; of two with one name the first counts.
pub fn given_values<'g>(
    alloc: Global,
    given: &'g [Given],
) -> Result<NameMap<'g, Constant>, NoMemory>
    ensures { IfOk result (λ values. (name : List ℕ) → given_of (given_seen values) name ≡ given_of (map given_parameter given.now) name) }
{
    let mut values = NameMap::new(alloc);
    'given: for one in given {
        keep_given(one, &mut values)?;
    }
    Ok(values)
}
