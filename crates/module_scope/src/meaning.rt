// What the declarations of a module mean by the values of its parameters.

ghost use Rattle.std.specs.Prelude.{◌≡◌, ◌||◌, OnOk, IfOk, option_map};
ghost use Rattle.v_tree.specs.Views.{expression_of};
ghost use Rattle.v_names.specs.Names.{kept_bound, parameter_entry, vector_entry, memory_entry};
ghost use Rattle.v_names.specs.ScopeViews.{entry_of};
ghost use Rattle.v_names.specs.SizeViews.{signed_value};
ghost use Rattle.module_scope.specs.Declarations.{declared_seen};
ghost use Rattle.name_checks.specs.RangeViews.{range_seen};
ghost use Rattle.module_scope.specs.Meanings.{meaning_with, meaning_by, parameter_by};
ghost use Rattle.module_scope.specs.Groups.{IsGrouped};
ghost use Rattle.module_scope.specs.Ranges.{kept_range, AreRanges};

use crate::declaration::Declared;
use crate::ranges::{GroupRange, GroupRanges, range_of_declared};
use name_checks::{BitRange, Bounds, bound_number, context_width, width_of};
use std::alloc::Global;
use v_names::{Constant, Entry, Scope, constant_of, is_waiting};
use v_tree::Expr;
use vf_base::{MAX_KEPT_BOUND, NoMemory};

/// A bound as it is kept: one over the most, which is refused elsewhere, counts as 0.
fn kept_bound(bound: u128) -> u32
    ensures { result ≡ kept_bound bound }
{
    if bound > MAX_KEPT_BOUND {
        0
    } else {
        bound as u32
    }
}

/// What a net or a variable is in a scope.
fn vector_entry(is_reg: bool, range: BitRange, signed: bool) -> Entry
    ensures { entry_of result ≡ vector_entry is_reg (range_seen range) signed }
{
    if is_reg {
        Entry::Reg {
            ranged: range.ranged,
            high: kept_bound(range.high),
            low: kept_bound(range.low),
            signed,
        }
    } else {
        Entry::Net {
            ranged: range.ranged,
            high: kept_bound(range.high),
            low: kept_bound(range.low),
            signed,
        }
    }
}

/// What a parameter is in a scope by its value: one with a range has its width and its sign, one without has those of its value.
fn parameter_entry(signed: bool, range: BitRange, constant: Option<Constant>) -> Entry
    ensures { entry_of result ≡ parameter_entry signed (range_seen range) (option_map signed_value constant) }
{
    match constant {
        None => Entry::RefusedParam,
        Some(constant) => {
            if !range.ranged {
                return Entry::Param(constant.value, signed || constant.signed);
            }
            match width_of(range) {
                None => Entry::RefusedParam,
                Some(width) => {
                    Entry::Param(
                        constant.value.resize_by_sign(constant.signed, width),
                        signed,
                    )
                }
            }
        }
    }
}

/// A parameter's value by its range: what the instance gives, else that of its expression. It has none yet where the expression names a parameter without
/// one, and where its range does, which isn't there then.
pub fn parameter_by(
    alloc: Global,
    scope: &Scope<'_>,
    signed: bool,
    range: Option<BitRange>,
    value: &Expr,
    given: Option<Constant>,
) -> Result<Entry, NoMemory>
    ensures { IfOk result (λ entry. entry_of entry ≡ parameter_by scope.now signed (option_map range_seen range) (expression_of value.now) (option_map signed_value given)) }
{
    let Some(range) = range else {
        return Ok(Entry::WaitingParam);
    };
    match given {
        Some(constant) => Ok(parameter_entry(signed, range, Some(constant))),
        None => {
            if is_waiting(value, scope) {
                return Ok(Entry::WaitingParam);
            }
            let constant = constant_of(alloc, value, scope, context_width(range))?;
            Ok(parameter_entry(signed, range, constant))
        }
    }
}

/// What a declared name means by its range and the parameters of a scope, where an instance gives it a value or none.
fn meaning_by(
    alloc: Global,
    scope: &Scope<'_>,
    given: Option<Constant>,
    declared: Declared<'_>,
    range: GroupRange,
) -> Result<Entry, NoMemory>
    ensures { IfOk result (λ entry. entry_of entry ≡ meaning_by scope.now (option_map signed_value given) (declared_seen declared.entry) range.waits (range_seen range.range)) }
{
    match declared {
        Declared::Param { signed, value, .. } => {
            let entry = parameter_by(alloc, scope, signed, range.unless_waiting(), value, given)?;
            Ok(entry)
        }
        Declared::Port { is_reg, signed, .. } => Ok(vector_entry(is_reg, range.range, signed)),
        Declared::Net { signed, .. } => Ok(vector_entry(false, range.range, signed)),
        Declared::Reg { signed, .. } => Ok(vector_entry(true, range.range, signed)),
        Declared::Memory {
            signed,
            addresses,
            ..
        } => {
            let first = bound_number(alloc, scope, &addresses.high)?;
            let last = bound_number(alloc, scope, &addresses.low)?;
            Ok(Entry::Memory {
                ranged: range.range.ranged,
                high: kept_bound(range.range.high),
                low: kept_bound(range.range.low),
                first: kept_bound(first),
                last: kept_bound(last),
                signed,
            })
        }
        Declared::Gate => Ok(Entry::Gate),
        Declared::Instance => Ok(Entry::Instance),
    }
}

/// What a declared name means by the parameters of a scope, where an instance gives it a value or none.
pub fn meaning_of(
    alloc: Global,
    scope: &Scope<'_>,
    given: Option<Constant>,
    declared: Declared<'_>,
    groups: &[Bounds<'_>],
    ranges: &mut GroupRanges,
) -> Result<Entry, NoMemory>
    requires grouped { IsGrouped groups.now declared }
    requires ranges { AreRanges scope.now groups.now (kept_range ranges.old) }
    ensures meaning { IfOk result (λ entry. entry_of entry ≡ meaning_with scope.now (option_map signed_value given) (declared_seen declared.entry)) }
    ensures ranges { OnOk result (AreRanges scope.now groups.now (kept_range ranges.new)) }
{
    let range = range_of_declared(alloc, scope, declared, groups, ranges)?;
    let entry = meaning_by(alloc, scope, given, declared, range)?;
    Ok(entry)
}
