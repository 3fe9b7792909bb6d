// How a slot ends.

ghost use Rattle.std.specs.Prelude.{◌≡◌};

use vf_base::Pair;

/// How a slot of a machine's first run ends: without a race, with the least pair of conflicting accesses of its first phase that has one, or
/// hyperactive, with more process and lane steps than a slot may have.
#[derive(Clone, Copy, PartialEq, Eq, Debug)]
pub enum SlotEnd {
    Fine,
    Race(Pair),
    Hyper,
}
