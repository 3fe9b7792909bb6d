// The ranges that bounds declare.

ghost use Rattle.std.specs.Prelude.{◌≡◌, ◌+◌, ◌≤◌, IfOk, IfSome};
ghost use Rattle.v_tree.specs.Views.{expression_of, range_of};
ghost use Rattle.v_names.specs.Names.{bound_number, range_of as range_in_scope, context_width, same_range};
ghost use Rattle.four_value.specs.Values.{IsWidth};
ghost use Rattle.v_design.specs.Sized.{span};
ghost use Rattle.name_checks.specs.BoundViews.{bounds_seen};
ghost use Rattle.name_checks.specs.RangeViews.{range_seen, fitting_width};

use crate::bounds::Bounds;
use std::alloc::Global;
use v_names::{Scope, number_of_constant};
use v_tree::Expr;
use vf_base::NoMemory;

/// The declared indexes of the first and the last bit, 0 where no range is declared; they may be over the most, which is refused elsewhere.
#[derive(Clone, Copy)]
pub struct BitRange {
    pub ranged: bool,
    pub high: u128,
    pub low: u128,
}

/// The number of a bound; one that has none counts as 0.
pub fn bound_number(alloc: Global, scope: &Scope<'_>, bound: &Expr) -> Result<u128, NoMemory>
    ensures { IfOk result (λ n. n ≡ bound_number scope.now (expression_of bound.now)) }
{
    match number_of_constant(alloc, bound, scope)? {
        None => Ok(0),
        Some(n) => Ok(n),
    }
}

/// The range that bounds declare.
pub fn range_of(alloc: Global, scope: &Scope<'_>, bounds: Bounds<'_>) -> Result<BitRange, NoMemory>
    ensures { IfOk result (λ range. range_seen range ≡ range_in_scope scope.now (bounds_seen bounds.entry)) }
{
    match bounds {
        Bounds::Unbounded => Ok(BitRange {
            ranged: false,
            high: 0,
            low: 0,
        }),
        Bounds::Integer => Ok(BitRange {
            ranged: true,
            high: 31,
            low: 0,
        }),
        Bounds::Ranged(range) => {
            let high = bound_number(alloc, scope, &range.high)?;
            let low = bound_number(alloc, scope, &range.low)?;
            Ok(BitRange {
                ranged: true,
                high,
                low,
            })
        }
    }
}

/// How far the bounds of a range stand apart.
fn distance(range: BitRange) -> u128
    ensures { result + 1 ≡ span range.high range.low }
{
    if range.high < range.low {
        range.low - range.high
    } else {
        range.high - range.low
    }
}

/// The width of a range, if it isn't over the most.
pub fn width_of(range: BitRange) -> Option<u8>
    ensures width { result ≡ fitting_width (range_seen range) }
    ensures most { IfSome result (λ width. IsWidth width) }
{
    let distance = distance(range);
    if distance < 128 {
        Some(distance as u8 + 1)
    } else {
        None
    }
}

/// The width that is the context of a parameter's own expression, 0 where it has no range or one that is too wide.
pub fn context_width(range: BitRange) -> u8
    ensures width { result ≡ context_width (range_seen range) }
    ensures most { result ≤ 128 }
{
    if !range.ranged {
        return 0;
    }
    match width_of(range) {
        None => 0,
        Some(width) => width,
    }
}

/// Whether two ranges have equal bounds, or neither has any.
pub fn is_same_range(one: BitRange, other: BitRange) -> bool
    ensures { result ≡ same_range (range_seen one) (range_seen other) }
{
    (!one.ranged && !other.ranged)
        || (one.ranged && other.ranged && one.high == other.high && one.low == other.low)
}
