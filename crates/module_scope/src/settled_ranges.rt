// The ranges of groups while parameters get their values: a range is evaluated once it names no parameter without one.

ghost use Rattle.std.specs.Prelude.{◌≡◌, ◌<◌, ◌↔◌, List, length, Some, None, IsTrue, OnOk, IfOk, option_map};
ghost use Rattle.std.specs.List.{slice_get};
ghost use Rattle.v_names.specs.Scopes.{Scope};
ghost use Rattle.name_checks.specs.BoundViews.{bounds_seen};
ghost use Rattle.name_checks.specs.RangeViews.{range_seen};
ghost use Rattle.name_checks.specs.declared.bounds.Bounds.{Bounds};
ghost use Rattle.module_scope.specs.Ranges.{range_once_known, AreSettledRanges};

use crate::ranges::{GroupRange, GroupRanges, bounds_wait};
use name_checks::{BitRange, Bounds, range_of};
use std::alloc::Global;
use v_names::Scope;
use vf_base::NoMemory;

/// The ranges of groups by the parameters that have values so far.
#[derive(Drop)]
pub struct SettledRanges {
    /// Those that don't wait. No parameter that gets its value changes one of them.
    known: GroupRanges,
    /// A group that waits, if one was found since a parameter got its value last. One is enough: the names of a group stand together in the text, and
    /// the order in which parameters get their values has none whose range waits when its turn comes.
    waiting: Option<usize>,
}

impl SettledRanges {
    /// Room for the ranges of so many groups, of which none has been looked at.
    pub fn new(alloc: Global, groups: usize) -> Result<SettledRanges, NoMemory>
        ensures { IfOk result (λ ranges. (scope : Scope) (bounds : List Bounds) → AreSettledRanges scope bounds ranges) }
    {
        let known = GroupRanges::new(alloc, groups)?;
        Ok(SettledRanges {
            known,
            waiting: None,
        })
    }

    /// Whether a group was found to wait.
    fn is_waiting(&self, group: usize) -> bool
        ensures { IsTrue result ↔ (self.now.waiting ≡ Some group) }
    {
        match self.waiting {
            None => false,
            Some(waiting) => waiting == group,
        }
    }

    /// Forgets which group waits, since a parameter has got its value.
    pub fn forget_waiting(&mut self)
        ensures known { self.new.known ≡ self.old.known }
        ensures waiting { self.new.waiting ≡ None }
    {
        self.waiting = None;
    }

    /// The ranges that don't wait.
    pub fn into_known(self) -> GroupRanges
        ensures { result ≡ self.known }
    {
        let SettledRanges { known, .. } = self;
        known
    }
}

/// Looks at the range of a group, and keeps it, or that it waits.
fn look_at(
    alloc: Global,
    scope: &Scope<'_>,
    groups: &[Bounds<'_>],
    group: usize,
    ranges: &mut SettledRanges,
) -> Result<Option<BitRange>, NoMemory>
    requires group { group < length groups.now }
    requires ranges { AreSettledRanges scope.now groups.now ranges.old }
    ensures range { IfOk result (λ range. (bounds : Bounds) → slice_get groups.now group ≡ Some bounds →
        option_map range_seen range ≡ range_once_known scope.now (bounds_seen bounds)) }
    ensures ranges { OnOk result (AreSettledRanges scope.now groups.now ranges.new) }
{
    let bounds = groups[group];
    if bounds_wait(scope, bounds) {
        ranges.waiting = Some(group);
        return Ok(None);
    }
    let range = range_of(alloc, scope, bounds)?;
    ranges.known.keep(
        group,
        GroupRange {
            waits: false,
            range,
        },
    );
    Ok(Some(range))
}

/// The range of a group by the parameters that have values, none while it names one that has none. It is looked at unless that is known.
pub fn settled_range(
    alloc: Global,
    scope: &Scope<'_>,
    groups: &[Bounds<'_>],
    group: usize,
    ranges: &mut SettledRanges,
) -> Result<Option<BitRange>, NoMemory>
    requires group { group < length groups.now }
    requires ranges { AreSettledRanges scope.now groups.now ranges.old }
    ensures range { IfOk result (λ range. (bounds : Bounds) → slice_get groups.now group ≡ Some bounds →
        option_map range_seen range ≡ range_once_known scope.now (bounds_seen bounds)) }
    ensures ranges { OnOk result (AreSettledRanges scope.now groups.now ranges.new) }
{
    if ranges.is_waiting(group) {
        return Ok(None);
    }
    match ranges.known.get(group) {
        Some(range) => Ok(Some(range.range)),
        None => {
            let range = look_at(alloc, scope, groups, group, ranges)?;
            Ok(range)
        }
    }
}
