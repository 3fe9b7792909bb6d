// The bits of a part of a signal.

ghost use Rattle.std.specs.Prelude.{◌≡◌, ◌+◌, ◌-◌, ◌<◌, ◌≤◌, ◌^◌, Some, map};
ghost use Rattle.v_design.specs.Expressions.{up_from, down_from, place_of, part_places};
ghost use Rattle.v_names.specs.Scopes.{DeclaredRange};
ghost use Rattle.elab_parts.specs.PartViews.{places_of};
ghost use Rattle.select_bits.specs.Runs.{BoundsTakeRun};

use elab_parts::DrivenBits;

/// The declared indexes of the most significant and the least significant bit of a signal.
#[derive(Clone, Copy)]
pub(crate) struct Bounds {
    pub(crate) high: u32,
    pub(crate) low: u32,
}

/// How many indexes a part has, as far as a signal can have them.
fn indexes_between(greater: u128, less: u128) -> u64
    ensures few { result ≤ 2 ^ 32 }
    ensures all { less ≤ greater → greater - less < 2 ^ 32 → result ≡ greater - less + 1 }
{
    let distance = greater.saturating_sub(less).min(u128::from(u32::MAX)) as u64;
    distance + 1
}

/// The part of a signal whose indexes rise with the significance of its bits. Where none of its bits is inside, its place is one of the signal's all the same.
fn rising_part(bounds: Bounds, from: u128, to: u128) -> DrivenBits
    requires { bounds.low ≤ bounds.high }
    ensures { to ≤ from → from - to < 2 ^ 32 → places_of result ≡ map (place_of bounds.high bounds.low) (up_from to (from - to + 1)) }
{
    let count = indexes_between(from, to);
    let high = u128::from(bounds.high);
    let low = u128::from(bounds.low);
    let outside_below = low.saturating_sub(to).min(u128::from(count)) as u64;
    let outside_above = from.saturating_sub(high).min(u128::from(count)) as u64;
    DrivenBits {
        outside_below,
        low: to.saturating_sub(low).min(high - low) as u64,
        width: count
            .saturating_sub(outside_below)
            .saturating_sub(outside_above),
        outside_above,
    }
}

/// The part of a signal whose indexes fall with the significance of its bits, likewise.
fn falling_part(bounds: Bounds, from: u128, to: u128) -> DrivenBits
    requires { bounds.high < bounds.low }
    ensures { from ≤ to → to - from < 2 ^ 32 → places_of result ≡ map (place_of bounds.high bounds.low) (down_from to (to - from + 1)) }
{
    let count = indexes_between(to, from);
    let high = u128::from(bounds.high);
    let low = u128::from(bounds.low);
    let outside_below = to.saturating_sub(low).min(u128::from(count)) as u64;
    let outside_above = high.saturating_sub(from).min(u128::from(count)) as u64;
    DrivenBits {
        outside_below,
        low: low.saturating_sub(to).min(low - high) as u64,
        width: count
            .saturating_sub(outside_below)
            .saturating_sub(outside_above),
        outside_above,
    }
}

/// The part of a signal between two bounds that run as its declaration does.
pub(crate) fn part_bits(bounds: Bounds, from: u128, to: u128) -> DrivenBits
    ensures { (range : DeclaredRange) → bounds.high ≡ range.high → bounds.low ≡ range.low → BoundsTakeRun range (Some from) (Some to) →
        places_of result ≡ part_places range.high range.low from to }
{
    if bounds.low <= bounds.high {
        rising_part(bounds, from, to)
    } else {
        falling_part(bounds, from, to)
    }
}
