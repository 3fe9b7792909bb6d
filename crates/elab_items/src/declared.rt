// The nets, variables and memories that an item declares.

ghost use Rattle.std.specs.Prelude.{◌≡◌, ◌≤◌, ◌∷◌, [], ◌++◌, Some, IfOk, OnOk, map, flat_map, option_map};
ghost use Rattle.vf_base.specs.Base.{source_place};
ghost use Rattle.vf_base.specs.Lists.{AllHold};
ghost use Rattle.v_design.specs.Sized.{most_bits};
ghost use Rattle.v_tree.specs.Trees.{NamedPlace, SourceWire, SourceReg};
ghost use Rattle.v_tree.specs.Views.{name_of, wire_of, reg_of};
ghost use Rattle.v_names.specs.ScopeViews.{entry_of};
ghost use Rattle.v_names.specs.Scopes.{declared_width};
ghost use Rattle.v_names.specs.Names as source;
ghost use Rattle.v_names.specs.Names.{names_declared, Bounds, reg_declarations};
ghost use Rattle.v_elab.specs.Walk as plain;
ghost use Rattle.v_elab.specs.Walk.{signal_part, part_by_entry, parts_of_own};
ghost use Rattle.elab_parts.specs.PartViews.{range_of, part_of, parts_of};
ghost use Rattle.module_scope.specs.Declarations.{declaration_seen, name_declared, wire_declarations};
ghost use Rattle.elab_items.specs.Heres.{IsHere};
ghost use Rattle.elab_items.specs.Wholes.{memory_part};
ghost use Rattle.elab_items.specs.Narrow.{IsNarrow};

use crate::content::{content_of, first_content_of};
use crate::drives::hierarchical;
use crate::here::Here;
use crate::joins::copy_joining;
use elab_parts::{DeclaredRange, Part, Signal, WalkedMemory};
use module_scope::Declaration;
use std::alloc::Global;
use v_names::Entry;
use v_tree::{Name, Reg, Wire};
use vf_base::{NoMemory, Place, Text};

/// Adds a part.
pub fn push_part<'u>(part: Part<'u>, parts: &mut Vec<Part<'u>>) -> Result<(), NoMemory>
    ensures { OnOk result (parts_of parts.new.items ≡ parts_of parts.old.items ++ part_of part.entry ∷ []) }
{
    parts.push(part)?;
    Ok(())
}

/// A net or a variable.
fn signal_part<'u>(
    alloc: Global,
    here: &Here<'_, 'u>,
    own: Declaration<'u>,
    is_reg: bool,
    range: DeclaredRange,
) -> Result<Part<'u>, NoMemory>
    ensures { IfOk result (λ part. (h : plain.Here) → IsHere h here.now → part_of part ≡ signal_part h (declaration_seen own.entry) is_reg (range_of range)) }
{
    let name = hierarchical(alloc, &here.path, own.name.as_bytes())?;
    let first = content_of(
        alloc,
        &here.scope,
        range.width(),
        first_content_of(own.declared),
    )?;
    let joined = copy_joining(alloc, here.joins.get(own.name.as_bytes()))?;
    Ok(Part::Signal(Signal {
        name,
        is_reg,
        range,
        first,
        place: own.place,
        depth: here.depth,
        joined,
    }))
}

/// A memory.
fn memory_part<'u>(
    alloc: Global,
    here: &Here<'_, 'u>,
    own: Declaration<'u>,
    range: DeclaredRange,
    first: u32,
    last: u32,
) -> Result<Part<'u>, NoMemory>
    ensures { IfOk result (λ part. (h : plain.Here) → IsHere h here.now → part_of part ≡ memory_part h (declaration_seen own.entry) (range_of range) first last) }
{
    let name = hierarchical(alloc, &here.path, own.name.as_bytes())?;
    Ok(Part::Memory(WalkedMemory {
        name,
        range,
        first,
        last,
        place: own.place,
    }))
}

/// Adds what a declaration is whose name means this, if that is a net, a variable or a memory; such a one has 128 bits at most.
fn push_meaning<'u>(
    alloc: Global,
    here: &Here<'_, 'u>,
    own: Declaration<'u>,
    meaning: &Entry,
    parts: &mut Vec<Part<'u>>,
) -> Result<(), NoMemory>
    requires { declared_width (Some (entry_of meaning.now)) ≤ most_bits }
    ensures { OnOk result ((h : plain.Here) → IsHere h here.now → parts_of parts.new.items ≡ parts_of parts.old.items ++ part_by_entry h (declaration_seen own.entry) (Some (entry_of meaning.now))) }
{
    match meaning {
        Entry::Net {
            ranged,
            high,
            low,
            ..
        } => {
            let range = DeclaredRange {
                ranged: *ranged,
                high: *high,
                low: *low,
            };
            let part = signal_part(alloc, here, own, false, range)?;
            push_part(part, parts)?;
            Ok(())
        }
        Entry::Reg {
            ranged,
            high,
            low,
            ..
        } => {
            let range = DeclaredRange {
                ranged: *ranged,
                high: *high,
                low: *low,
            };
            let part = signal_part(alloc, here, own, true, range)?;
            push_part(part, parts)?;
            Ok(())
        }
        Entry::Memory {
            ranged,
            high,
            low,
            first,
            last,
            ..
        } => {
            let range = DeclaredRange {
                ranged: *ranged,
                high: *high,
                low: *low,
            };
            let part = memory_part(alloc, here, own, range, *first, *last)?;
            push_part(part, parts)?;
            Ok(())
        }
        Entry::Param(_, _) => Ok(()),
        Entry::RefusedParam => Ok(()),
        Entry::WaitingParam => Ok(()),
        Entry::Gate => Ok(()),
        Entry::Instance => Ok(()),
    }
}

/// Adds what a declaration is by what its name means, if it means anything.
fn push_entry<'u>(
    alloc: Global,
    here: &Here<'_, 'u>,
    own: Declaration<'u>,
    entry: &Option<Entry>,
    parts: &mut Vec<Part<'u>>,
) -> Result<(), NoMemory>
    requires { declared_width (option_map entry_of entry.now) ≤ most_bits }
    ensures { OnOk result ((h : plain.Here) → IsHere h here.now → parts_of parts.new.items ≡ parts_of parts.old.items ++ part_by_entry h (declaration_seen own.entry) (option_map entry_of entry.now)) }
{
    match entry {
        None => Ok(()),
        Some(meaning) => {
            push_meaning(alloc, here, own, meaning, parts)?;
            Ok(())
        }
    }
}

/// Adds what a name is that stands at a place in a declaration, if that is where it is declared first.
fn push_own<'u>(
    alloc: Global,
    here: &Here<'_, 'u>,
    name: &Text,
    place: Place,
    parts: &mut Vec<Part<'u>>,
) -> Result<(), NoMemory>
    requires { IsNarrow here.now.scope.value name.now }
    ensures { OnOk result ((h : plain.Here) (d : source.Declaration) → IsHere h here.now → d.name ≡ name.now → d.place ≡ source_place place →
        parts_of parts.new.items ≡ parts_of parts.old.items ++ parts_of_own h (names_declared h.instance.inner) d) }
{
    match here.declared.get(name.as_bytes()) {
        None => Ok(()),
        Some(own) => {
            if own.place != place {
                return Ok(());
            }
            push_entry(alloc, here, own, &here.scope.lookup(name), parts)?;
            Ok(())
        }
    }
}

/// Adds what some names are that are declared together.
pub fn push_names<'u>(
    alloc: Global,
    here: &Here<'_, 'u>,
    names: &'u [Name],
    parts: &mut Vec<Part<'u>>,
) -> Result<(), NoMemory>
    requires { AllHold (λ (n : NamedPlace). IsNarrow here.now.scope.value n.name) (map name_of names.now) }
    ensures { OnOk result ((h : plain.Here) (declared : source.Declared) → IsHere h here.now →
        parts_of parts.new.items ≡ parts_of parts.old.items ++ flat_map (parts_of_own h (names_declared h.instance.inner)) (map (name_declared declared) (map name_of names.now))) }
{
    'names: for name in names {
        push_own(alloc, here, &name.name, name.place, parts)?;
    }
    Ok(())
}

/// Adds the nets that some names are.
pub fn push_nets<'u>(
    alloc: Global,
    here: &Here<'_, 'u>,
    wires: &'u [Wire],
    parts: &mut Vec<Part<'u>>,
) -> Result<(), NoMemory>
    requires { AllHold (λ (w : SourceWire). IsNarrow here.now.scope.value w.name) (map wire_of wires.now) }
    ensures { OnOk result ((h : plain.Here) (signed : _) (bounds : Bounds) → IsHere h here.now →
        parts_of parts.new.items ≡ parts_of parts.old.items ++ flat_map (parts_of_own h (names_declared h.instance.inner)) (wire_declarations signed bounds (map wire_of wires.now))) }
{
    'wires: for wire in wires {
        push_own(alloc, here, &wire.name, wire.place, parts)?;
    }
    Ok(())
}

/// Adds the variables and memories that some names are.
pub fn push_regs<'u>(
    alloc: Global,
    here: &Here<'_, 'u>,
    regs: &'u [Reg],
    parts: &mut Vec<Part<'u>>,
) -> Result<(), NoMemory>
    requires { AllHold (λ (r : SourceReg). IsNarrow here.now.scope.value r.name) (map reg_of regs.now) }
    ensures { OnOk result ((h : plain.Here) (signed : _) (bounds : Bounds) → IsHere h here.now →
        parts_of parts.new.items ≡ parts_of parts.old.items ++ flat_map (parts_of_own h (names_declared h.instance.inner)) (reg_declarations signed bounds (map reg_of regs.now))) }
{
    'regs: for reg in regs {
        push_own(alloc, here, &reg.name, reg.place, parts)?;
    }
    Ok(())
}
