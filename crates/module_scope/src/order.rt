// An order of the declarations of a module in which each parameter stands behind those that it names.
//
// Bounds that parameters share would count once for each of them, so bounds stand in the graph too, numbered behind the declarations: a parameter
// needs its bounds and the names of its value, bounds need their names, or the ones before them where these are the same.

ghost use Rattle.std.specs.Prelude.{◌≡◌, ◌+◌, ◌<◌, length, IfOk, OnOk, vec_len};
ghost use Rattle.graph_order.specs.Digraphs.{lists_of, NeedVertices};
ghost use Rattle.module_scope.specs.Kept.{kept};
ghost use Rattle.module_scope.specs.Below.{PlacesBelow, AreBelow, NeedsBelow};

use crate::declaration::{Declaration, Declared};
use crate::name_map::NameMap;
use crate::settle::is_waiting_name;
use graph_order::put_in_order;
use name_checks::Bounds;
use std::alloc::Global;
use v_names::{Constant, Scope};
use v_tree::Expr;
use vf_base::{NoMemory, Place, Text};

/// Whether some parameter waits for others.
fn is_one_waiting(scope: &Scope<'_>, declared: &[Declaration<'_>]) -> bool {
    'declared: for declaration in declared {
        if is_waiting_name(scope, declaration.name) {
            return true;
        }
    }
    false
}

/// Keeps the place of a declaration, if it is that of a parameter that waits.
fn keep_waiting<'m>(
    scope: &Scope<'_>,
    declaration: Declaration<'m>,
    place: usize,
    places: &mut NameMap<'m, usize>,
) -> Result<(), NoMemory>
    requires { PlacesBelow place (kept places.old) }
    ensures { OnOk result (PlacesBelow (place + 1) (kept places.new)) }
{
    if !is_waiting_name(scope, declaration.name) {
        return Ok(());
    }
    places.put(declaration.name.as_bytes(), place)?;
    Ok(())
}

/// The places of the parameters that wait.
fn waiting_places<'m>(
    alloc: Global,
    scope: &Scope<'_>,
    declared: &[Declaration<'m>],
) -> Result<NameMap<'m, usize>, NoMemory>
    ensures { IfOk result (λ places. PlacesBelow (length declared.now) (kept places)) }
{
    let mut places = NameMap::new(alloc);
    'declared: for (place, declaration) in declared.iter().enumerate() {
        keep_waiting(scope, *declaration, place, &mut places)?;
    }
    Ok(places)
}

/// Adds the place of a name, if it waits.
fn push_place(
    name: &Text,
    places: &NameMap<'_, usize>,
    count: usize,
    needs: &mut Vec<usize>,
) -> Result<(), NoMemory>
    requires places { PlacesBelow count (kept places.now) }
    requires needs { AreBelow count needs.old.items }
    ensures { OnOk result (AreBelow count needs.new.items) }
{
    match places.get(name.as_bytes()) {
        None => Ok(()),
        Some(place) => {
            needs.push(place)?;
            Ok(())
        }
    }
}

/// Adds the places of the names in an expression that wait.
#[cycle(push_places)]
fn push_places(
    expr: &Expr,
    places: &NameMap<'_, usize>,
    count: usize,
    needs: &mut Vec<usize>,
) -> Result<(), NoMemory>
    requires places { PlacesBelow count (kept places.now) }
    requires needs { AreBelow count needs.old.items }
    ensures { OnOk result (AreBelow count needs.new.items) }
{
    match expr {
        Expr::Number { .. } => Ok(()),
        Expr::Name { name, .. } => {
            push_place(name, places, count, needs)?;
            Ok(())
        }
        Expr::BitSelect { name, index, .. } => {
            push_place(name, places, count, needs)?;
            push_places(index, places, count, needs)?;
            Ok(())
        }
        Expr::PartSelect { name, from, to, .. } => {
            push_place(name, places, count, needs)?;
            push_places(from, places, count, needs)?;
            push_places(to, places, count, needs)?;
            Ok(())
        }
        Expr::Paren { inner, .. } => {
            push_places(inner, places, count, needs)?;
            Ok(())
        }
        Expr::Unary { operand, .. } => {
            push_places(operand, places, count, needs)?;
            Ok(())
        }
        Expr::Binary { left, right, .. } => {
            push_places(left, places, count, needs)?;
            push_places(right, places, count, needs)?;
            Ok(())
        }
        Expr::Conditional {
            condition,
            first,
            second,
            ..
        } => {
            push_places(condition, places, count, needs)?;
            push_places(first, places, count, needs)?;
            push_places(second, places, count, needs)?;
            Ok(())
        }
        Expr::Concat { parts, .. } => {
            push_part_places(parts, places, count, needs)?;
            Ok(())
        }
        Expr::Repeat {
            count: times,
            parts,
            ..
        } => {
            push_places(times, places, count, needs)?;
            push_part_places(parts, places, count, needs)?;
            Ok(())
        }
    }
}

/// Adds the places of the names in some expressions that wait.
#[cycle(push_places)]
fn push_part_places(
    parts: &[Expr],
    places: &NameMap<'_, usize>,
    count: usize,
    needs: &mut Vec<usize>,
) -> Result<(), NoMemory>
    requires places { PlacesBelow count (kept places.now) }
    requires needs { AreBelow count needs.old.items }
    ensures { OnOk result (AreBelow count needs.new.items) }
{
    'parts: for part in parts {
        push_places(part, places, count, needs)?;
    }
    Ok(())
}

/// What a declaration needs: its bounds, which have this number, and the parameters that wait in its value, if no instance gives it.
fn needs_of_value(
    alloc: Global,
    declared: Declared<'_>,
    given: Option<Constant>,
    places: &NameMap<'_, usize>,
    bounds: usize,
    count: usize,
) -> Result<Vec<usize>, NoMemory>
    requires places { PlacesBelow count (kept places.now) }
    requires bounds { bounds < count }
    ensures { IfOk result (λ needs. AreBelow count needs.items) }
{
    let mut needs = Vec::new(alloc);
    let Declared::Param { value, .. } = declared else {
        return Ok(needs);
    };
    needs.push(bounds)?;
    if given.is_some() {
        return Ok(needs);
    }
    push_places(value, places, count, &mut needs)?;
    Ok(needs)
}

/// The bounds of a parameter.
fn parameter_bounds(declared: Declared<'_>) -> Bounds<'_> {
    match declared {
        Declared::Param { bounds, .. } => bounds.bounds,
        _ => Bounds::Unbounded,
    }
}

/// Where the range of a parameter stands, if it has one.
fn place_of_range(declared: Declared<'_>) -> Option<Place> {
    match parameter_bounds(declared) {
        Bounds::Ranged(range) => Some(range.place),
        _ => None,
    }
}

/// Whether the declaration at a place has the same range as the one before it.
fn has_range_before(declared: &[Declaration<'_>], place: usize) -> bool
    requires { place < length declared.now }
{
    if place == 0 {
        return false;
    }
    let range = place_of_range(declared[place].declared);
    range.is_some() && range == place_of_range(declared[place - 1].declared)
}

/// What the bounds of the declaration at a place need: the parameters that wait in them, or the bounds of the declaration before, where they are the same.
fn needs_of_bounds(
    alloc: Global,
    declared: &[Declaration<'_>],
    place: usize,
    places: &NameMap<'_, usize>,
) -> Result<Vec<usize>, NoMemory>
    requires places { PlacesBelow (length declared.now + length declared.now) (kept places.now) }
    requires place { place < length declared.now }
    ensures { IfOk result (λ needs. AreBelow (length declared.now + length declared.now) needs.items) }
{
    let count = declared.len() + declared.len();
    let mut needs = Vec::new(alloc);
    if has_range_before(declared, place) {
        needs.push(declared.len() + place - 1)?;
        return Ok(needs);
    }
    let Bounds::Ranged(range) = parameter_bounds(declared[place].declared) else {
        return Ok(needs);
    };
    push_places(&range.high, places, count, &mut needs)?;
    push_places(&range.low, places, count, &mut needs)?;
    Ok(needs)
}

/// For each declaration what it needs.
fn declaration_needs(
    alloc: Global,
    declared: &[Declaration<'_>],
    given: &NameMap<'_, Constant>,
    places: &NameMap<'_, usize>,
) -> Result<Vec<Vec<usize>>, NoMemory>
    requires { PlacesBelow (length declared.now + length declared.now) (kept places.now) }
    ensures count { IfOk result (λ needs. vec_len needs ≡ length declared.now) }
    ensures below { IfOk result (λ needs. NeedsBelow (length declared.now + length declared.now) (lists_of needs.items)) }
{
    let count = declared.len();
    let mut needs = Vec::new(alloc);
    'declared: for (place, declaration) in declared.iter().enumerate() {
        let value = given.get(declaration.name.as_bytes());
        let own = needs_of_value(
            alloc,
            declaration.declared,
            value,
            places,
            count + place,
            count + count,
        )?;
        needs.push(own)?;
    }
    Ok(needs)
}

/// Adds for each declaration what its bounds need.
fn push_bound_needs(
    alloc: Global,
    declared: &[Declaration<'_>],
    places: &NameMap<'_, usize>,
    needs: &mut Vec<Vec<usize>>,
) -> Result<(), NoMemory>
    requires places { PlacesBelow (length declared.now + length declared.now) (kept places.now) }
    requires count { vec_len needs.old ≡ length declared.now }
    requires below { NeedsBelow (length declared.now + length declared.now) (lists_of needs.old.items) }
    ensures { OnOk result (NeedVertices (lists_of needs.new.items)) }
{
    'places: for place in 0..declared.len() {
        let own = needs_of_bounds(alloc, declared, place, places)?;
        needs.push(own)?;
    }
    Ok(())
}

/// What each declaration needs, and behind these what the bounds of each need.
fn all_needs(
    alloc: Global,
    scope: &Scope<'_>,
    declared: &[Declaration<'_>],
    given: &NameMap<'_, Constant>,
) -> Result<Vec<Vec<usize>>, NoMemory>
    ensures { IfOk result (λ needs. NeedVertices (lists_of needs.items)) }
{
    let places = waiting_places(alloc, scope, declared)?;
    let mut needs = declaration_needs(alloc, declared, given, &places)?;
    push_bound_needs(alloc, declared, &places, &mut needs)?;
    Ok(needs)
}

/// The places of declarations, among other numbers, such that each parameter that waits stands behind those that it waits for, but for those that
/// wait for themselves. Empty where none waits.
pub fn waiting_order(
    alloc: Global,
    scope: &Scope<'_>,
    declared: &[Declaration<'_>],
    given: &NameMap<'_, Constant>,
) -> Result<Vec<usize>, NoMemory> {
    if !is_one_waiting(scope, declared) {
        return Ok(Vec::new(alloc));
    }
    let needs = all_needs(alloc, scope, declared, given)?;
    let order = put_in_order(alloc, &needs)?;
    Ok(order.vertices)
}
