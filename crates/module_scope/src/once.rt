// The names that a module declares, each once.

ghost use Rattle.std.specs.Prelude.{◌≡◌, ◌||◌, ℕ, List, [], ◌∷◌, ◌++◌, OnOk, IfOk, option_map, is_some};
ghost use Rattle.v_tree.specs.Trees.{same_name};
ghost use Rattle.v_names.specs.Names.{is_plain, is_port, plain_of_name, first_declarations};
ghost use Rattle.module_scope.specs.Kept.{kept};
ghost use Rattle.name_checks.specs.declared.bounds.Bounds.{Bounds};
ghost use Rattle.module_scope.specs.Groups.{group_bounds, AreGrouped, AddsGrouped, DeclaredIn};
ghost use Rattle.module_scope.specs.Declarations.{declared_seen, declaration_seen, declarations_seen, joined_with, joined_by, or_first, first_in, unless_there};

use crate::declaration::{Declaration, Declared, GroupBounds};
use crate::name_map::NameMap;
use name_checks::Bounds;
use std::alloc::Global;
use vf_base::{NoMemory, Place};

/// Whether this is a `reg` or a `wire`, no memory and no `integer`.
pub fn is_plain(declared: Declared<'_>) -> bool
    ensures { result ≡ is_plain (declared_seen declared.entry) }
{
    match declared {
        Declared::Net { .. } => true,
        Declared::Reg {
            bounds: GroupBounds {
                bounds: Bounds::Integer,
                ..
            },
            ..
        } => false,
        Declared::Reg { .. } => true,
        _ => false,
    }
}

/// Whether this is a port.
pub fn is_port(declared: Declared<'_>) -> bool
    ensures { result ≡ is_port (declared_seen declared.entry) }
{
    match declared {
        Declared::Port { .. } => true,
        _ => false,
    }
}

/// What a declaration is with a second one of its name: a port is a variable or signed if either says so, and takes the first content.
fn joined_declared<'m>(declared: Declared<'m>, again: Declared<'m>) -> Declared<'m>
    ensures joined { declared_seen result ≡ joined_with (declared_seen declared.entry) (declared_seen again.entry) }
    ensures bounds { group_bounds result ≡ group_bounds declared.entry }
{
    match (declared, again) {
        (
            Declared::Port {
                direction,
                is_reg,
                signed,
                bounds,
                first,
            },
            Declared::Net {
                signed: signed_again,
                ..
            },
        ) => Declared::Port {
            direction,
            is_reg,
            signed: signed || signed_again,
            bounds,
            first,
        },
        (
            Declared::Port {
                direction,
                signed,
                bounds,
                ..
            },
            Declared::Reg {
                signed: signed_again,
                first,
                ..
            },
        ) => Declared::Port {
            direction,
            is_reg: true,
            signed: signed || signed_again,
            bounds,
            first,
        },
        _ => declared,
    }
}

/// A declaration with what a second one of its name adds.
fn joined<'m>(declaration: Declaration<'m>, again: Option<Declaration<'m>>) -> Declaration<'m>
    ensures joined { declaration_seen result ≡ joined_by (declaration_seen declaration.entry) (option_map declaration_seen again.entry) }
    ensures bounds { group_bounds result.declared ≡ group_bounds declaration.entry.declared }
{
    match again {
        None => declaration,
        Some(again) => Declaration {
            name: declaration.name,
            place: declaration.place,
            declared: joined_declared(declaration.declared, again.declared),
        },
    }
}

/// Keeps a declaration that is a `reg` or a `wire`, unless one of its name is kept.
fn keep_plain<'m>(
    declaration: Declaration<'m>,
    plains: &mut NameMap<'m, Declaration<'m>>,
) -> Result<(), NoMemory>
    ensures { OnOk result ((name : List ℕ) → option_map declaration_seen (kept plains.new name) ≡ or_first (option_map declaration_seen
        (kept plains.old name)) (plain_of_name name (declaration_seen declaration.entry ∷ []))) }
{
    if !is_plain(declaration.declared) {
        return Ok(());
    }
    match plains.get(declaration.name.as_bytes()) {
        Some(_) => Ok(()),
        None => {
            plains.put(declaration.name.as_bytes(), declaration)?;
            Ok(())
        }
    }
}

/// For each name its first declaration as a `reg` or a `wire`.
fn plain_declarations<'m>(
    alloc: Global,
    all: &[Declaration<'m>],
) -> Result<NameMap<'m, Declaration<'m>>, NoMemory>
    ensures { IfOk result (λ plains. (name : List ℕ) → option_map declaration_seen (kept plains name) ≡ first_in (plain_of_name name (declarations_seen all.now))) }
{
    let mut plains = NameMap::new(alloc);
    'all: for declaration in all {
        keep_plain(*declaration, &mut plains)?;
    }
    Ok(plains)
}

/// Adds a declaration to those of other names, with what a second one of its name adds, unless its name is there.
fn push_once<'m>(
    declaration: Declaration<'m>,
    plains: &NameMap<'m, Declaration<'m>>,
    seen: &mut NameMap<'m, Place>,
    list: &mut Vec<Declaration<'m>>,
) -> Result<(), NoMemory>
    ensures seen { OnOk result ((name : List ℕ) → is_some (kept seen.new name) ≡ (same_name declaration.entry.name.now name || is_some (kept seen.old name))) }
    ensures pushed { OnOk result (declarations_seen list.new.items ≡ declarations_seen list.old.items ++ unless_there (is_some
        (kept seen.old declaration.entry.name.now)) (joined_by (declaration_seen declaration.entry) (option_map declaration_seen (kept plains.now declaration.entry.name.now)))) }
    ensures grouped { OnOk result (AddsGrouped (DeclaredIn declaration.entry.declared) list.old.items list.new.items) }
{
    match seen.get(declaration.name.as_bytes()) {
        Some(_) => Ok(()),
        None => {
            seen.put(declaration.name.as_bytes(), declaration.place)?;
            list.push(joined(declaration, plains.get(declaration.name.as_bytes())))?;
            Ok(())
        }
    }
}

/// The first declaration of each name, in text order, with what a second one adds.
pub fn names_once<'m>(
    alloc: Global,
    all: &[Declaration<'m>],
) -> Result<Vec<Declaration<'m>>, NoMemory>
    ensures once { IfOk result (λ list. declarations_seen list.items ≡ first_declarations (declarations_seen all.now) [] (declarations_seen all.now)) }
    ensures grouped { IfOk result (λ list. (groups : List Bounds) → AreGrouped groups all.now → AreGrouped groups list.items) }
{
    let plains = plain_declarations(alloc, all)?;
    let mut seen = NameMap::new(alloc);
    let mut list = Vec::new(alloc);
    'all: for declaration in all {
        push_once(*declaration, &plains, &mut seen, &mut list)?;
    }
    Ok(list)
}
