// Who writes an object.

ghost use Rattle.std.specs.Prelude.{◌≡◌, ◌++◌, ◌∷◌, [], IfOk, OnOk, map, option_map};
ghost use Rattle.std.specs.List.{list_any};
ghost use Rattle.key_index.specs.Places.{keys_of};
ghost use Rattle.key_index.specs.Groups.{keyed_of};
ghost use Rattle.v_tree.specs.Trees.{has_name};
ghost use Rattle.v_elab.specs.Drivers.{signals_of};
ghost use Rattle.elab_parts.specs.PartViews.{joining_of, part_of, parts_of};
ghost use Rattle.elab_wires.specs.WrittenNames.{written_of, objects_written, is_other, has_other_writer, output_into, output_names};

use crate::signals::Signals;
use crate::written::Written;
use elab_parts::{Joining, Part};
use key_index::{Grouped, KeyIndex, Keyed};
use std::alloc::Global;
use std::marker::Model;
use v_tree::Direction;
use vf_base::NoMemory;

/// The objects that parts write, each by its outermost name, with the numbers of the parts. Contracts see the list of both.
#[derive(Drop)]
pub struct Writers<'w> {
    by_object: Grouped<'w, usize>,
}

impl<'w> Model for Writers<'w> {
    ghost use Rattle.std.specs.Prelude.{List, ℕ};

    ghost Value = { List (List ℕ × ℕ) };

    ghost view = { λ w. w.by_object };
}

/// The outermost names of what is written.
fn list_objects<'w>(
    alloc: Global,
    signals: &'w Signals<'_>,
    written: &'w [Written],
) -> Result<Vec<Keyed<'w, usize>>, NoMemory>
    ensures { IfOk result (λ objects. map keyed_of objects.items ≡ objects_written signals.now (map written_of written.now)) }
{
    let mut objects = Vec::new(alloc);
    'written: for name in written {
        objects.push(Keyed {
            key: signals.outermost(name.name.as_bytes()),
            item: name.part,
        })?;
    }
    Ok(objects)
}

/// Whether there is a part of another number.
fn has_other(parts: &[usize], part: usize) -> bool
    ensures { result ≡ list_any (is_other part) parts.now }
{
    'parts: for other in parts {
        if *other != part {
            return true;
        }
    }
    false
}

impl<'w> Writers<'w> {
    /// The objects that are written, where these names are.
    pub fn new(
        alloc: Global,
        signals: &'w Signals<'_>,
        written: &'w [Written],
    ) -> Result<Writers<'w>, NoMemory>
        ensures { IfOk result (λ writers. writers ≡ objects_written signals.now (map written_of written.now)) }
    {
        let objects = list_objects(alloc, signals, written)?;
        let by_object = Grouped::new(alloc, objects)?;
        Ok(Writers { by_object })
    }

    /// Whether a part of another number writes the object that an outermost name is.
    pub fn has_other(&self, alloc: Global, part: usize, object: &[u8]) -> Result<bool, NoMemory>
        ensures { IfOk result (λ other. other ≡ has_other_writer self.now part object.now) }
    {
        let parts = self.by_object.all(alloc, object)?;
        Ok(has_other(&parts, part))
    }
}

/// The names that output ports are joined into, found by their hash. Contracts see the list of them.
#[derive(Drop)]
pub struct PortWriters<'p> {
    into: KeyIndex<'p>,
}

impl<'p> Model for PortWriters<'p> {
    ghost use Rattle.std.specs.Prelude.{List, ℕ};

    ghost Value = { List (List ℕ) };

    ghost view = { λ w. w.into };
}

/// Adds the name that an output port is joined into.
fn push_output<'p>(joined: &'p Option<Joining>, names: &mut Vec<&'p [u8]>) -> Result<(), NoMemory>
    ensures { OnOk result (keys_of names.new.items ≡ keys_of names.old.items ++ output_into (option_map joining_of joined.now)) }
{
    match joined {
        Some(joining) if joining.direction == Direction::Output => {
            names.push(joining.into.as_bytes())?;
            Ok(())
        }
        _ => Ok(()),
    }
}

/// The names that the output ports among some parts are joined into.
fn list_outputs<'p>(alloc: Global, parts: &'p [Part<'_>]) -> Result<Vec<&'p [u8]>, NoMemory>
    ensures { IfOk result (λ names. keys_of names.items ≡ output_names (signals_of (parts_of parts.now))) }
{
    let mut names = Vec::new(alloc);
    'parts: for part in parts {
        push_part_output(part, &mut names)?;
    }
    Ok(names)
}

/// Adds the name that a part is joined into, where it is an output port.
fn push_part_output<'p>(part: &'p Part<'_>, names: &mut Vec<&'p [u8]>) -> Result<(), NoMemory>
    ensures { OnOk result (keys_of names.new.items ≡ keys_of names.old.items ++ output_names (signals_of (part_of part.now ∷ []))) }
{
    match part {
        Part::Signal(signal) => {
            push_output(&signal.joined, names)?;
            Ok(())
        }
        Part::Memory(_)
        | Part::Assign { .. }
        | Part::Gate { .. }
        | Part::Process(_)
        | Part::Instance => Ok(()),
    }
}

impl<'p> PortWriters<'p> {
    /// The names that output ports of some parts are joined into.
    pub fn new(alloc: Global, parts: &'p [Part<'_>]) -> Result<PortWriters<'p>, NoMemory>
        ensures { IfOk result (λ ports. ports ≡ output_names (signals_of (parts_of parts.now))) }
    {
        let names = list_outputs(alloc, parts)?;
        let into = KeyIndex::new(alloc, names)?;
        Ok(PortWriters { into })
    }

    /// Whether an output port is joined into a name.
    pub fn has(&self, name: &[u8]) -> bool
        ensures { result ≡ has_name self.now name.now }
    {
        self.into.first(name).is_some()
    }
}
