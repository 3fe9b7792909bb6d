// The values of the parameters of a module.
//
// Passes over the declarations in text order, until one gives no parameter a value. Parameters that are declared before they are used need one
// pass and one that changes nothing. Behind a pass those that still wait are gone through in an order in which each stands behind those that it
// names, so that the next pass changes nothing, whatever the order of the text.

ghost use Rattle.std.specs.Prelude.{◌≡◌, ◌+◌, ◌≤◌, ◌||◌, IfOk, OnOk, Some, option_map};
ghost use Rattle.v_names.specs.Scopes.{is_waiting, looked_up};
ghost use Rattle.v_names.specs.ScopeViews.{entry_of};
ghost use Rattle.v_names.specs.Names.{waiting_entry, waiting_scope, meanings, scope_after, parameter_count};
ghost use Rattle.v_names.specs.SizeViews.{signed_value};
ghost use Rattle.module_scope.specs.Declarations.{declared_seen, declaration_seen, declarations_seen};
ghost use Rattle.module_scope.specs.Givens.{given_seen};
ghost use Rattle.module_scope.specs.Groups.{IsGrouped, AreGrouped};
ghost use Rattle.module_scope.specs.Ranges.{kept_range, AreRanges, AreSettledRanges};
ghost use Rattle.module_scope.specs.Settled.{waiting_left, AreApart, AreStill, IsPassed, IsSettled, IsTurn, OnlyParametersWait};

use crate::declaration::{Declaration, Declared};
use crate::meaning::{meaning_of, parameter_by};
use crate::name_map::NameMap;
use crate::order::waiting_order;
use crate::ranges::GroupRanges;
use crate::settled_ranges::{SettledRanges, settled_range};
use name_checks::Bounds;
use std::alloc::Global;
use v_names::{Constant, Entry, Scope};
use vf_base::{NoMemory, Text};

/// What a name means before any parameter has a value: nets and the like mean nothing to a parameter.
fn waiting_entry(declared: Declared<'_>) -> Entry
    ensures { entry_of result ≡ waiting_entry (declared_seen declared.entry) }
{
    match declared {
        Declared::Param { .. } => Entry::WaitingParam,
        _ => Entry::Gate,
    }
}

/// The scope in which no parameter has a value.
fn waiting_scope<'m>(alloc: Global, declared: &[Declaration<'m>]) -> Result<Scope<'m>, NoMemory>
    requires { AreApart (declarations_seen declared.now) }
    ensures { IfOk result (λ scope. scope ≡ waiting_scope (declarations_seen declared.now)) }
{
    let mut scope = Scope::new(alloc);
    'declared: for declaration in declared {
        scope.declare(
            declaration.name.as_bytes(),
            waiting_entry(declaration.declared),
        )?;
    }
    Ok(scope)
}

/// Whether this is a parameter that has no value.
fn is_waiting_entry(entry: &Entry) -> bool
    ensures { result ≡ is_waiting (Some (entry_of entry.now)) }
{
    match entry {
        Entry::WaitingParam => true,
        _ => false,
    }
}

/// Whether a name is that of a parameter that has no value.
pub fn is_waiting_name(scope: &Scope<'_>, name: &Text) -> bool
    ensures { result ≡ is_waiting (looked_up scope.now name.now) }
{
    match scope.lookup(name) {
        None => false,
        Some(entry) => is_waiting_entry(&entry),
    }
}

/// Gives a parameter its value if it has none and those that it names have theirs; answers whether it did.
fn settle<'m>(
    alloc: Global,
    scope: &mut Scope<'m>,
    declaration: Declaration<'m>,
    given: Option<Constant>,
    groups: &[Bounds<'m>],
    ranges: &mut SettledRanges,
) -> Result<bool, NoMemory>
    requires parameter { OnlyParametersWait scope.old (declaration_seen declaration) }
    requires grouped { IsGrouped groups.now declaration.declared }
    requires ranges { AreSettledRanges scope.old groups.now ranges.old }
    ensures turn { IfOk result (λ changed. IsTurn (option_map signed_value given) (declaration_seen declaration.entry) scope.old scope.new changed) }
    ensures ranges { OnOk result (AreSettledRanges scope.new groups.now ranges.new) }
{
    if !is_waiting_name(scope, declaration.name) {
        return Ok(false);
    }
    let Declared::Param {
        signed,
        bounds,
        value,
        ..
    } = declaration.declared
    else {
        return Ok(false);
    };
    let range = settled_range(alloc, scope, groups, bounds.group, ranges)?;
    let entry = parameter_by(alloc, scope, signed, range, value, given)?;
    if is_waiting_entry(&entry) {
        return Ok(false);
    }
    scope.put(declaration.name.as_bytes(), entry)?;
    ranges.forget_waiting();
    Ok(true)
}

/// Whether one of two is true.
fn either(one: bool, other: bool) -> bool
    ensures { result ≡ (one || other) }
{
    one || other
}

/// Gives each parameter its value that has none and whose names have theirs, in text order; answers whether there was one.
fn pass<'m>(
    alloc: Global,
    scope: &mut Scope<'m>,
    declared: &[Declaration<'m>],
    given: &NameMap<'_, Constant>,
    groups: &[Bounds<'m>],
    ranges: &mut SettledRanges,
) -> Result<bool, NoMemory>
    requires apart { AreApart (declarations_seen declared.now) }
    requires settled { IsSettled (given_seen given.now) (declarations_seen declared.now) scope.old }
    requires grouped { AreGrouped groups.now declared.now }
    requires ranges { AreSettledRanges scope.old groups.now ranges.old }
    ensures passed { IfOk result (λ changed. IsPassed (given_seen given.now) (declarations_seen declared.now) scope.old scope.new changed) }
    ensures ranges { OnOk result (AreSettledRanges scope.new groups.now ranges.new) }
{
    let mut changed = false;
    'declared: for declaration in declared {
        let now = settle(
            alloc,
            scope,
            *declaration,
            given.get(declaration.name.as_bytes()),
            groups,
            ranges,
        )?;
        changed = either(changed, now);
    }
    Ok(changed)
}

/// Gives the parameter at a place its value if it has none and those that it names have theirs; there may be no such place.
fn settle_at<'m>(
    alloc: Global,
    scope: &mut Scope<'m>,
    declared: &[Declaration<'m>],
    given: &NameMap<'_, Constant>,
    groups: &[Bounds<'m>],
    place: usize,
    ranges: &mut SettledRanges,
) -> Result<(), NoMemory>
    requires apart { AreApart (declarations_seen declared.now) }
    requires settled { IsSettled (given_seen given.now) (declarations_seen declared.now) scope.old }
    requires grouped { AreGrouped groups.now declared.now }
    requires ranges { AreSettledRanges scope.old groups.now ranges.old }
    ensures settled { OnOk result (IsSettled (given_seen given.now) (declarations_seen declared.now) scope.new) }
    ensures fewer { OnOk result (waiting_left scope.new (declarations_seen declared.now) ≤ waiting_left scope.old (declarations_seen declared.now)) }
    ensures ranges { OnOk result (AreSettledRanges scope.new groups.now ranges.new) }
{
    if place >= declared.len() {
        return Ok(());
    }
    let declaration = declared[place];
    let value = given.get(declaration.name.as_bytes());
    settle(alloc, scope, declaration, value, groups, ranges)?;
    Ok(())
}

/// Gives values to parameters that wait, those first on which others rest. The order only saves passes, so nothing is said of it.
fn settle_waiting<'m>(
    alloc: Global,
    scope: &mut Scope<'m>,
    declared: &[Declaration<'m>],
    given: &NameMap<'_, Constant>,
    groups: &[Bounds<'m>],
    ranges: &mut SettledRanges,
) -> Result<(), NoMemory>
    requires apart { AreApart (declarations_seen declared.now) }
    requires settled { IsSettled (given_seen given.now) (declarations_seen declared.now) scope.old }
    requires grouped { AreGrouped groups.now declared.now }
    requires ranges { AreSettledRanges scope.old groups.now ranges.old }
    ensures settled { OnOk result (IsSettled (given_seen given.now) (declarations_seen declared.now) scope.new) }
    ensures fewer { OnOk result (waiting_left scope.new (declarations_seen declared.now) ≤ waiting_left scope.old (declarations_seen declared.now)) }
    ensures ranges { OnOk result (AreSettledRanges scope.new groups.now ranges.new) }
{
    let order = waiting_order(alloc, scope, declared, given)?;
    'order: for place in &order {
        settle_at(alloc, scope, declared, given, groups, *place, ranges)?;
    }
    Ok(())
}

/// Gives each parameter its value that doesn't rest on itself.
fn settle_all<'m>(
    alloc: Global,
    scope: &mut Scope<'m>,
    declared: &[Declaration<'m>],
    given: &NameMap<'_, Constant>,
    groups: &[Bounds<'m>],
    ranges: &mut SettledRanges,
) -> Result<(), NoMemory>
    requires apart { AreApart (declarations_seen declared.now) }
    requires settled { IsSettled (given_seen given.now) (declarations_seen declared.now) scope.old }
    requires grouped { AreGrouped groups.now declared.now }
    requires ranges { AreSettledRanges scope.old groups.now ranges.old }
    ensures settled { OnOk result (IsSettled (given_seen given.now) (declarations_seen declared.now) scope.new) }
    ensures still { OnOk result (AreStill (given_seen given.now) scope.new (declarations_seen declared.now)) }
    ensures ranges { OnOk result (AreSettledRanges scope.new groups.now ranges.new) }
{
    'passes: loop {
        let changed = pass(alloc, scope, declared, given, groups, ranges)?;
        if !changed {
            return Ok(());
        }
        settle_waiting(alloc, scope, declared, given, groups, ranges)?;
    }
}

/// The scope of what the declarations mean by the parameters of a scope.
fn meanings<'m>(
    alloc: Global,
    settled: &Scope<'m>,
    declared: &[Declaration<'m>],
    given: &NameMap<'_, Constant>,
    groups: &[Bounds<'m>],
    ranges: &mut GroupRanges,
) -> Result<Scope<'m>, NoMemory>
    requires apart { AreApart (declarations_seen declared.now) }
    requires grouped { AreGrouped groups.now declared.now }
    requires ranges { AreRanges settled.now groups.now (kept_range ranges.old) }
    ensures { IfOk result (λ scope. scope ≡ meanings settled.now (given_seen given.now) (declarations_seen declared.now)) }
{
    let mut scope = Scope::new(alloc);
    'declared: for declaration in declared {
        let value = given.get(declaration.name.as_bytes());
        let entry = meaning_of(alloc, settled, value, declaration.declared, groups, ranges)?;
        scope.declare(declaration.name.as_bytes(), entry)?;
    }
    Ok(scope)
}

/// The scope of declared names, each once, by the bounds of their groups and the values that an instance gives some parameters.
pub fn scope_of<'m>(
    alloc: Global,
    declared: &[Declaration<'m>],
    groups: &[Bounds<'m>],
    given: &NameMap<'_, Constant>,
) -> Result<Scope<'m>, NoMemory>
    requires apart { AreApart (declarations_seen declared.now) }
    requires grouped { AreGrouped groups.now declared.now }
    ensures { IfOk result (λ scope. scope ≡ scope_after (parameter_count (declarations_seen declared.now) + 1) (given_seen given.now) (declarations_seen declared.now)) }
{
    let mut settled = waiting_scope(alloc, declared)?;
    let mut settled_ranges = SettledRanges::new(alloc, groups.len())?;
    settle_all(
        alloc,
        &mut settled,
        declared,
        given,
        groups,
        &mut settled_ranges,
    )?;
    let mut ranges = settled_ranges.into_known();
    let scope = meanings(alloc, &settled, declared, given, groups, &mut ranges)?;
    Ok(scope)
}
