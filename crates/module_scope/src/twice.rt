// Names that are declared twice, and the list of ports.

ghost use Rattle.std.specs.Prelude.{◌≡◌, ◌||◌, ℕ, List, [], ◌∷◌, OnOk, IfOk, not, option_map, map, is_some, cond, Some, IfSome};
ghost use Rattle.vf_base.specs.Base.{source_place};
ghost use Rattle.v_tree.specs.Trees.{same_name};
ghost use Rattle.v_names.specs.Faults.{DeclaredTwice, fault_if};
ghost use Rattle.v_tree.specs.Views.{heads_of, name_of};
ghost use Rattle.v_names.specs.Names.{may_follow, twice_faults, head_faults, heads_faults};
ghost use Rattle.name_checks.specs.Noted.{noted};
ghost use Rattle.name_checks.specs.declared.bounds.Bounds.{Bounds};
ghost use Rattle.module_scope.specs.Kept.{kept};
ghost use Rattle.module_scope.specs.Declarations.{declaration_seen, declarations_seen};
ghost use Rattle.module_scope.specs.Groups.{IsGrouped, AreGrouped};
ghost use Rattle.module_scope.specs.Ranges.{kept_range, AreRanges};
ghost use Rattle.module_scope.specs.Earlier.{IsEarlierGrouped, EarlierGrouped, earlier_seen, may_follow_earlier, earlier_with, twice_fault_of, head_fault_of};

use crate::declaration::Declaration;
use crate::name_map::NameMap;
use crate::once::{is_plain, is_port};
use crate::ranges::{GroupRanges, range_of_declared};
use name_checks::{Bounds, FirstFault, is_same_range, note_known, note_port_groups};
use std::alloc::Global;
use v_names::{Found, Reason, Scope};
use v_tree::{Heads, Name};
use vf_base::{NoMemory, Place};

/// The earlier declarations of a name.
#[derive(Clone, Copy)]
pub enum Earlier<'m> {
    /// One.
    Once(Declaration<'m>),
    /// More than one.
    More,
}

/// Whether a declaration declares a port once more, as a `reg` or a `wire` of the same range.
fn is_port_again(
    alloc: Global,
    scope: &Scope<'_>,
    port: Declaration<'_>,
    again: Declaration<'_>,
    groups: &[Bounds<'_>],
    ranges: &mut GroupRanges,
) -> Result<bool, NoMemory>
    requires port { IsGrouped groups.now port.declared }
    requires again { IsGrouped groups.now again.declared }
    requires ranges { AreRanges scope.now groups.now (kept_range ranges.old) }
    ensures same { IfOk result (λ same. same ≡ may_follow scope.now (declaration_seen port.entry ∷ []) (declaration_seen again.entry)) }
    ensures ranges { OnOk result (AreRanges scope.now groups.now (kept_range ranges.new)) }
{
    if !is_port(port.declared) {
        return Ok(false);
    }
    if !is_plain(again.declared) {
        return Ok(false);
    }
    let one = range_of_declared(alloc, scope, port.declared, groups, ranges)?;
    let other = range_of_declared(alloc, scope, again.declared, groups, ranges)?;
    Ok(is_same_range(one.range, other.range))
}

/// Whether a declaration may follow the earlier ones of its name.
fn may_follow(
    alloc: Global,
    scope: &Scope<'_>,
    earlier: Option<Earlier<'_>>,
    declaration: Declaration<'_>,
    groups: &[Bounds<'_>],
    ranges: &mut GroupRanges,
) -> Result<bool, NoMemory>
    requires grouped { IsGrouped groups.now declaration.declared }
    requires earlier { IfSome earlier (IsEarlierGrouped groups.now) }
    requires ranges { AreRanges scope.now groups.now (kept_range ranges.old) }
    ensures may { IfOk result (λ may. may ≡ may_follow_earlier scope.now (option_map earlier_seen earlier.entry) (declaration_seen declaration.entry)) }
    ensures ranges { OnOk result (AreRanges scope.now groups.now (kept_range ranges.new)) }
{
    match earlier {
        None => Ok(true),
        Some(Earlier::More) => Ok(false),
        Some(Earlier::Once(port)) => {
            let may = is_port_again(alloc, scope, port, declaration, groups, ranges)?;
            Ok(may)
        }
    }
}

/// The earlier declarations of a name after one more.
fn with_one_more<'m>(earlier: Option<Earlier<'m>>, declaration: Declaration<'m>) -> Earlier<'m>
    ensures earlier { earlier_seen result ≡ earlier_with (option_map earlier_seen earlier.entry) (declaration_seen declaration.entry) }
    ensures grouped { (groups : List Bounds) → IsGrouped groups declaration.entry.declared → IsEarlierGrouped groups result }
{
    match earlier {
        None => Earlier::Once(declaration),
        Some(_) => Earlier::More,
    }
}

/// Notes a declaration at a place that may not stand there.
fn note_unless(may: bool, place: Place, first: &mut FirstFault)
    ensures { first.new ≡ noted first.old (fault_if (not may) (source_place place) DeclaredTwice) }
{
    if !may {
        first.note(Found {
            place,
            reason: Reason::DeclaredTwice,
        });
    }
}

/// Notes a declaration that may not follow the earlier ones of its name, and adds it to them.
fn note_twice<'m>(
    alloc: Global,
    scope: &Scope<'_>,
    declaration: Declaration<'m>,
    groups: &[Bounds<'m>],
    earlier: &mut NameMap<'m, Earlier<'m>>,
    ranges: &mut GroupRanges,
    first: &mut FirstFault,
) -> Result<(), NoMemory>
    requires grouped { IsGrouped groups.now declaration.declared }
    requires earlier { EarlierGrouped groups.now (kept earlier.old) }
    requires ranges { AreRanges scope.now groups.now (kept_range ranges.old) }
    ensures noted { OnOk result (first.new ≡ noted first.old (twice_fault_of scope.now (option_map earlier_seen (kept earlier.old declaration.entry.name.now)) (declaration_seen declaration.entry))) }
    ensures earlier { OnOk result ((name : List ℕ) → option_map earlier_seen (kept earlier.new name) ≡ cond (same_name declaration.entry.name.now name) (Some
        (earlier_with (option_map earlier_seen (kept earlier.old declaration.entry.name.now)) (declaration_seen declaration.entry))) (option_map earlier_seen (kept earlier.old name))) }
    ensures grouped { OnOk result (EarlierGrouped groups.now (kept earlier.new)) }
    ensures ranges { OnOk result (AreRanges scope.now groups.now (kept_range ranges.new)) }
{
    let name = declaration.name.as_bytes();
    let before = earlier.get(name);
    let may = may_follow(alloc, scope, before, declaration, groups, ranges)?;
    earlier.put(name, with_one_more(before, declaration))?;
    note_unless(may, declaration.place, first);
    Ok(())
}

/// Notes the declarations that may not follow the earlier ones of their names.
pub fn note_all_twice<'m>(
    alloc: Global,
    scope: &Scope<'_>,
    all: &[Declaration<'m>],
    groups: &[Bounds<'m>],
    first: &mut FirstFault,
) -> Result<(), NoMemory>
    requires { AreGrouped groups.now all.now }
    ensures { OnOk result (first.new ≡ noted first.old (twice_faults scope.now [] (declarations_seen all.now))) }
{
    let mut earlier = NameMap::new(alloc);
    let mut ranges = GroupRanges::new(alloc, groups.len())?;
    'all: for declaration in all {
        note_twice(
            alloc,
            scope,
            *declaration,
            groups,
            &mut earlier,
            &mut ranges,
            first,
        )?;
    }
    Ok(())
}

/// Notes a name of the list of ports that isn't declared or stands there already.
fn note_head<'m>(
    scope: &Scope<'_>,
    head: &'m Name,
    earlier: &mut NameMap<'m, Place>,
    first: &mut FirstFault,
) -> Result<(), NoMemory>
    ensures noted { OnOk result (first.new ≡ noted first.old (head_fault_of scope.now (is_some (kept earlier.old head.now.name)) (name_of head.now))) }
    ensures earlier { OnOk result ((name : List ℕ) → is_some (kept earlier.new name) ≡ (same_name head.now.name name || is_some (kept earlier.old name))) }
{
    note_known(scope, &head.name, head.place, first);
    match earlier.get(head.name.as_bytes()) {
        Some(_) => {
            first.note(Found {
                place: head.place,
                reason: Reason::DeclaredTwice,
            });
            Ok(())
        }
        None => {
            earlier.put(head.name.as_bytes(), head.place)?;
            Ok(())
        }
    }
}

/// Notes the names of the list of ports that aren't declared or stand there twice.
fn note_heads(
    alloc: Global,
    scope: &Scope<'_>,
    heads: &[Name],
    first: &mut FirstFault,
) -> Result<(), NoMemory>
    ensures { OnOk result (first.new ≡ noted first.old (head_faults scope.now [] (map name_of heads.now))) }
{
    let mut earlier = NameMap::new(alloc);
    'heads: for head in heads {
        note_head(scope, head, &mut earlier, first)?;
    }
    Ok(())
}

/// Notes what is wrong with the list of ports.
pub fn note_ports(
    alloc: Global,
    scope: &Scope<'_>,
    heads: &Heads,
    first: &mut FirstFault,
) -> Result<(), NoMemory>
    ensures { OnOk result (first.new ≡ noted first.old (heads_faults scope.now (heads_of heads.now))) }
{
    match heads {
        Heads::Plain(names) => {
            note_heads(alloc, scope, names.as_slice(), first)?;
            Ok(())
        }
        Heads::Declared(groups) => {
            note_port_groups(alloc, scope, groups.as_slice(), first)?;
            Ok(())
        }
    }
}
