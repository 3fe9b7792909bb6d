// The ranges of declarations by the parameters of a scope, evaluated once for all names that are declared together.

ghost use Rattle.std.specs.Prelude.{◌≡◌, ◌<◌, ℕ, length, None, Some, OnOk, IfOk, option_map};
ghost use Rattle.std.specs.List.{slice_get};
ghost use Rattle.v_names.specs.Names.{bounds_wait, declared_bounds};
ghost use Rattle.name_checks.specs.BoundViews.{bounds_seen};
ghost use Rattle.name_checks.specs.RangeViews.{range_seen};
ghost use Rattle.name_checks.specs.declared.bounds.Bounds.{Bounds};
ghost use Rattle.module_scope.specs.Declarations.{declared_seen};
ghost use Rattle.module_scope.specs.Groups.{group_bounds, IsGrouped};
ghost use Rattle.module_scope.specs.Ranges.{kept_range, unless_waiting, IsRangeIn, AreRanges, HasOneMore};

use crate::declaration::{Declared, GroupBounds};
use name_checks::{BitRange, Bounds, range_of};
use std::alloc::Global;
use v_names::{Scope, is_waiting};
use vf_base::NoMemory;

/// The range of a group of declarations, and whether it names a parameter that has no value.
#[derive(Clone, Copy)]
pub struct GroupRange {
    pub waits: bool,
    pub range: BitRange,
}

impl GroupRange {
    /// The range, unless it waits.
    pub fn unless_waiting(self) -> Option<BitRange>
        ensures { option_map range_seen result ≡ unless_waiting self.waits (range_seen self.range) }
    {
        if self.waits { None } else { Some(self.range) }
    }
}

/// The ranges of groups as far as they have been evaluated.
#[derive(Drop)]
pub struct GroupRanges {
    evaluated: Vec<Option<GroupRange>>,
}

impl GroupRanges {
    /// Room for the ranges of so many groups, of which none has been evaluated.
    pub fn new(alloc: Global, groups: usize) -> Result<GroupRanges, NoMemory>
        ensures { IfOk result (λ ranges. (group : ℕ) → kept_range ranges group ≡ None) }
    {
        let mut evaluated = Vec::new(alloc);
        evaluated.resize(groups, None)?;
        Ok(GroupRanges { evaluated })
    }

    /// The range of a group, if it has been evaluated.
    pub fn get(&self, group: usize) -> Option<GroupRange>
        ensures { result ≡ kept_range self.now group }
    {
        if group >= self.evaluated.len() {
            return None;
        }
        self.evaluated[group]
    }

    /// Keeps the range of a group.
    pub fn keep(&mut self, group: usize, range: GroupRange)
        ensures { HasOneMore group range (kept_range self.old) (kept_range self.new) }
    {
        if group < self.evaluated.len() {
            self.evaluated[group] = Some(range);
        }
    }
}

/// Whether a bound names a parameter that has no value yet.
pub fn bounds_wait(scope: &Scope<'_>, bounds: Bounds<'_>) -> bool
    ensures { result ≡ bounds_wait scope.now (bounds_seen bounds.entry) }
{
    match bounds {
        Bounds::Unbounded => false,
        Bounds::Integer => false,
        Bounds::Ranged(range) => is_waiting(&range.high, scope) || is_waiting(&range.low, scope),
    }
}

/// The range of bounds, and whether it waits.
fn evaluated(alloc: Global, scope: &Scope<'_>, bounds: Bounds<'_>) -> Result<GroupRange, NoMemory>
    ensures { IfOk result (λ range. IsRangeIn scope.now (bounds_seen bounds.entry) range) }
{
    let waits = bounds_wait(scope, bounds);
    let range = range_of(alloc, scope, bounds)?;
    Ok(GroupRange { waits, range })
}

/// The range of a group, which is evaluated unless it is kept, and kept.
fn range_of_group(
    alloc: Global,
    scope: &Scope<'_>,
    groups: &[Bounds<'_>],
    group: usize,
    ranges: &mut GroupRanges,
) -> Result<GroupRange, NoMemory>
    requires group { group < length groups.now }
    requires ranges { AreRanges scope.now groups.now (kept_range ranges.old) }
    ensures range { IfOk result (λ range. (bounds : Bounds) → slice_get groups.now group ≡ Some bounds → IsRangeIn scope.now (bounds_seen bounds) range) }
    ensures ranges { OnOk result (AreRanges scope.now groups.now (kept_range ranges.new)) }
{
    match ranges.get(group) {
        Some(range) => Ok(range),
        None => {
            let range = evaluated(alloc, scope, groups[group])?;
            ranges.keep(group, range);
            Ok(range)
        }
    }
}

/// The bounds of what has bits.
fn bounds_of_declared(declared: Declared<'_>) -> Option<GroupBounds<'_>>
    ensures { result ≡ group_bounds declared.entry }
{
    match declared {
        Declared::Param { bounds, .. } => Some(bounds),
        Declared::Port { bounds, .. } => Some(bounds),
        Declared::Net { bounds, .. } => Some(bounds),
        Declared::Reg { bounds, .. } => Some(bounds),
        Declared::Memory { bounds, .. } => Some(bounds),
        Declared::Gate => None,
        Declared::Instance => None,
    }
}

/// The range of what is declared; it is evaluated once for all names of a group.
pub fn range_of_declared(
    alloc: Global,
    scope: &Scope<'_>,
    declared: Declared<'_>,
    groups: &[Bounds<'_>],
    ranges: &mut GroupRanges,
) -> Result<GroupRange, NoMemory>
    requires grouped { IsGrouped groups.now declared }
    requires ranges { AreRanges scope.now groups.now (kept_range ranges.old) }
    ensures range { IfOk result (λ range. IsRangeIn scope.now (declared_bounds (declared_seen declared.entry)) range) }
    ensures ranges { OnOk result (AreRanges scope.now groups.now (kept_range ranges.new)) }
{
    match bounds_of_declared(declared) {
        None => {
            let unranged = evaluated(alloc, scope, Bounds::Unbounded)?;
            Ok(unranged)
        }
        Some(bounds) => {
            let range = range_of_group(alloc, scope, groups, bounds.group, ranges)?;
            Ok(range)
        }
    }
}
