// Whether updates are the same, and whether they are due at the same times.

ghost use Rattle.std.specs.Prelude.{◌≡◌, ◌↔◌, IsTrue, map};
ghost use Rattle.v_design.specs.Plain.{due_of, update_of};
ghost use Rattle.lockstep_copy.specs.Kept.{time_of, writes_told};

use four_value::Vec4;
use v_design::{Due, Update};

/// Whether two values are equal.
fn same_value(one: Vec4, other: Vec4) -> bool
    ensures { IsTrue result ↔ (one ≡ other) }
{
    one.width() == other.width() && one.same(other)
}

/// Whether two updates are equal.
fn same_update(one: Update, other: Update) -> bool
    ensures { IsTrue result ↔ (update_of one ≡ update_of other) }
{
    one.object == other.object
        && one.low == other.low
        && one.line == other.line
        && same_value(one.value, other.value)
}

/// Whether two pending updates are equal.
fn same_due(one: Due, other: Due) -> bool
    ensures { IsTrue result ↔ (due_of one ≡ due_of other) }
{
    one.time == other.time && same_update(one.update, other.update)
}

/// Whether two lists of pending updates are equal.
fn same_later(one: &[Due], other: &[Due]) -> bool
    ensures { IsTrue result ↔ (map due_of one.now ≡ map due_of other.now) }
{
    if one.len() != other.len() {
        return false;
    }
    'updates: for place in 0..one.len() {
        if !same_due(one[place], other[place]) {
            return false;
        }
    }
    true
}

/// Whether two lanes are equal.
fn same_lane(one: &[Update], other: &[Update]) -> bool
    ensures { IsTrue result ↔ (map update_of one.now ≡ map update_of other.now) }
{
    if one.len() != other.len() {
        return false;
    }
    'updates: for place in 0..one.len() {
        if !same_update(one[place], other[place]) {
            return false;
        }
    }
    true
}

/// Whether what a process has yet to write is equal.
pub(crate) fn same_writes(
    one_later: &[Due],
    one_lane: &[Update],
    other_later: &[Due],
    other_lane: &[Update],
) -> bool
    ensures { IsTrue result ↔ (writes_told one_later.now one_lane.now ≡ writes_told other_later.now other_lane.now) }
{
    same_later(one_later, other_later) && same_lane(one_lane, other_lane)
}

/// Whether pending updates are due at the same times, one after the other.
pub(crate) fn same_times(one: &[Due], other: &[Due]) -> bool
    ensures { IsTrue result ↔ (map time_of one.now ≡ map time_of other.now) }
{
    if one.len() != other.len() {
        return false;
    }
    'updates: for place in 0..one.len() {
        if one[place].time != other[place].time {
            return false;
        }
    }
    true
}
