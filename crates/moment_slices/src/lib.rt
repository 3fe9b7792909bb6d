//! What comes from one moment of a window on and before another, among elements in the order of their moments (events by IEEE 1364-2001, clause 5).
//!
//! The events of a window are numbered through, and the number of an event is its moment. `within` finds the elements by binary search. Main contract: they are just those
//! whose moments come within the bounds, in their order.
#![tactic(auto)]

ghost use Rattle.std.specs.Prelude.{◌≡◌, ◌<◌, ◌≤◌, ℕ, Some, filter, length, slice_get};
ghost use Rattle.std.specs.List.Sorted.{IsNonDecreasingBy};
ghost use Rattle.moment_slices.specs.Within.{comes_within};

use trace_window::Change;

/// An element with the moment of an event.
pub trait AtMoment {
    ghost use Rattle.std.specs.Prelude.{◌≡◌, ℕ};

    /// The moment.
    ghost moment_of: { Self → ℕ };

    /// The moment.
    fn moment(&self) -> u32
        ensures { result ≡ moment_of self.now };
}

impl AtMoment for Change {
    ghost moment_of = { λ change. change.moment };

    fn moment(&self) -> u32 {
        self.moment
    }
}

/// How many of some elements, which come in the order of their moments, come before a moment.
fn count_before<T: AtMoment>(items: &[T], moment: u32) -> usize
    requires { IsNonDecreasingBy T.moment_of items.now }
    ensures within { result ≤ length items.now }
    ensures before { (place : ℕ) (item : T) → place < result → slice_get items.now place ≡ Some item → T.moment_of item < moment }
    ensures behind { (place : ℕ) (item : T) → result ≤ place → slice_get items.now place ≡ Some item → moment ≤ T.moment_of item }
{
    items.partition_point(|item| item.moment() < moment)
}

/// Those of some elements, which come in the order of their moments, that come from a moment on and before a limit.
pub fn within<T: AtMoment>(items: &[T], first: u32, limit: u32) -> &[T]
    requires rise { IsNonDecreasingBy T.moment_of items.now }
    requires order { first ≤ limit }
    ensures { result.now ≡ filter (λ (item : T). comes_within first limit (T.moment_of item)) items.now }
{
    let from = count_before(items, first);
    let to = count_before(items, limit);
    &items[from..to]
}
