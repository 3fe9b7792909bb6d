// Whether two states are equal.

ghost use Rattle.std.specs.Prelude.{◌≡◌, ◌↔◌, IsTrue, length, map, option_map};
ghost use Rattle.v_design.specs.Places.{PlacesDiffer};
ghost use Rattle.v_design.specs.Plain.{statement_of, update_of};
ghost use Rattle.process_code.specs.Points.{point_of, activity_of};
ghost use Rattle.process_code.specs.Sameness.{StandsWith, IsSamePoint};
ghost use Rattle.process_code.specs.Codes.{IsCodeOf};
ghost use Rattle.process_code.specs.StatesOf.{IsStateOf};
ghost use Rattle.process_code.specs.declared.code.Code.{Code};

use crate::state::{ProcState, Stage};
use four_value::Vec4;
use v_design::Update;

impl ProcState {
    /// Whether both states are equal: both are done, or stand at one position, with the same operands, counts and updates left, and are ready or stopped alike.
    /// Where no two statements of the process stand at one place, as in each design that keeps its rules, it is true exactly where both states of its code do the same.
    pub fn same(&self, other: &ProcState) -> bool
        ensures point { IsTrue result ↔ IsSamePoint (point_of self.now) (point_of other.now) }
        ensures activity { IsTrue result → (code : Code) → activity_of code self.now ≡ activity_of code other.now }
        ensures equal { (code : Code) → PlacesDiffer (statement_of code.process.now.body) → IsCodeOf code.process.now code → IsStateOf code self.now →
            IsStateOf code other.now → (IsTrue result ↔ activity_of code self.now ≡ activity_of code other.now) }
    {
        self.stands_alike(other)
    }

    /// Whether both are done, or stand at one position with the same left, and are ready or stopped alike.
    fn stands_alike(&self, other: &ProcState) -> bool
        ensures { IsTrue result ↔ IsSamePoint (point_of self.now) (point_of other.now) }
    {
        let stopped_alike = self.stage == other.stage;
        if !stopped_alike {
            return false;
        }
        if self.is_done() {
            return true;
        }
        self.stands_with(other)
    }

    /// Whether the process is done.
    fn is_done(&self) -> bool
        ensures { IsTrue result ↔ (self.now.stage ≡ Stage.Done) }
    {
        matches!(self.stage, Stage::Done)
    }

    /// Whether both stand at one position, with the same operands, counts and updates left.
    fn stands_with(&self, other: &ProcState) -> bool
        ensures { IsTrue result ↔ StandsWith (point_of self.now) (point_of other.now) }
    {
        self.position == other.position
            && same_counts(&self.counts, &other.counts)
            && same_values(&self.operands, &other.operands)
            && same_updates(&self.updates, &other.updates)
            && (self.updates.is_empty() || (self.place == other.place && self.delay == other.delay))
    }
}

/// Whether two values are equal.
fn same_value(one: Vec4, other: Vec4) -> bool
    ensures { IsTrue result ↔ (one ≡ other) }
{
    one.width() == other.width() && one.same(other)
}

/// Whether two lists of values are equal.
fn same_values(one: &[Vec4], other: &[Vec4]) -> bool
    ensures { IsTrue result ↔ (one.now ≡ other.now) }
{
    if one.len() != other.len() {
        return false;
    }
    'values: for place in 0..one.len() {
        if !same_value(one[place], other[place]) {
            return false;
        }
    }
    true
}

/// Whether two lists of counts are equal.
fn same_counts(one: &[u128], other: &[u128]) -> bool
    ensures { IsTrue result ↔ (one.now ≡ other.now) }
{
    one == other
}

/// Whether two updates are equal, or neither is there.
fn same_update(one: Option<Update>, other: Option<Update>) -> bool
    ensures { IsTrue result ↔ (option_map update_of one ≡ option_map update_of other) }
{
    match (one, other) {
        (None, None) => true,
        (Some(one), Some(other)) => {
            one.object == other.object
                && one.low == other.low
                && one.line == other.line
                && same_value(one.value, other.value)
        }
        _ => false,
    }
}

/// Whether two lists of updates are equal.
fn same_updates(one: &[Option<Update>], other: &[Option<Update>]) -> bool
    ensures { IsTrue result ↔ (map (option_map update_of) one.now ≡ map (option_map update_of) other.now) }
{
    if one.len() != other.len() {
        return false;
    }
    'updates: for place in 0..one.len() {
        if !same_update(one[place], other[place]) {
            return false;
        }
    }
    true
}
