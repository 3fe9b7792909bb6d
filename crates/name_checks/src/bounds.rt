// Declared bounds.

ghost use Rattle.std.specs.Prelude.{◌≡◌};
ghost use Rattle.v_tree.specs.Views.{range_in};
ghost use Rattle.v_names.specs.Names.{bounds_of};
ghost use Rattle.name_checks.specs.BoundViews.{bounds_seen};

use v_tree::Range;

/// The declared bounds of what has bits.
#[derive(Clone, Copy)]
pub enum Bounds<'m> {
    /// None: one bit.
    Unbounded,
    /// Those of an `integer`.
    Integer,
    Ranged(&'m Range),
}

/// The bounds that a range declares, if there is one.
pub fn bounds_of<'m>(range: &'m Option<Range>) -> Bounds<'m>
    ensures { bounds_seen result ≡ bounds_of (range_in range.now) }
{
    match range {
        None => Bounds::Unbounded,
        Some(range) => Bounds::Ranged(range),
    }
}
