// The bits of a select with constant indexes.

ghost use Rattle.std.specs.Prelude.{◌≡◌, [], ◌∷◌, option_map, IfOk};
ghost use Rattle.v_design.specs.Expressions.{place_of_number};
ghost use Rattle.v_design.specs.Sized.{span};
ghost use Rattle.v_tree.specs.Views.{select_of};
ghost use Rattle.v_names.specs.Scopes.{DeclaredRange};
ghost use Rattle.v_names.specs.ScopeViews.{entry_of};
ghost use Rattle.v_width.specs.Targets.{range_of_entry, whole_places, places_between, places_of_select};
ghost use Rattle.elab_parts.specs.PartViews.{places_of};
ghost use Rattle.select_bits.specs.Runs.{BoundsTakeRun, TakesRun};

use crate::part::{Bounds, part_bits};
use elab_parts::DrivenBits;
use expr_eval::place_of_index;
use std::alloc::Global;
use v_names::{Entry, Scope, number_of_constant, span};
use v_tree::{Index, Select};
use vf_base::NoMemory;

/// The declared bounds of a net or a variable, 0 where no range is declared and for anything else.
fn bounds_of(entry: &Option<Entry>) -> Bounds
    ensures high { result.high ≡ (range_of_entry (option_map entry_of entry.now)).high }
    ensures low { result.low ≡ (range_of_entry (option_map entry_of entry.now)).low }
{
    match entry {
        Some(Entry::Net { high, low, .. }) => Bounds {
            high: *high,
            low: *low,
        },
        Some(Entry::Reg { high, low, .. }) => Bounds {
            high: *high,
            low: *low,
        },
        _ => Bounds { high: 0, low: 0 },
    }
}

/// All bits of a signal.
fn whole_bits(bounds: Bounds) -> DrivenBits
    ensures { places_of result ≡ whole_places (span bounds.high bounds.low) }
{
    DrivenBits {
        outside_below: 0,
        low: 0,
        width: span(bounds.high, bounds.low),
        outside_above: 0,
    }
}

/// The place of an index that is known; none where it is outside the range.
fn place_of_number(bounds: Bounds, number: Option<u128>) -> Option<u32>
    ensures { result ≡ place_of_number bounds.high bounds.low number }
{
    match number {
        None => None,
        Some(index) => place_of_index(bounds.high, bounds.low, index),
    }
}

/// One bit, at its place or outside.
fn bit_at(place: Option<u32>) -> DrivenBits
    ensures { places_of result ≡ place ∷ [] }
{
    match place {
        None => DrivenBits {
            outside_below: 1,
            low: 0,
            width: 0,
            outside_above: 0,
        },
        Some(place) => DrivenBits {
            outside_below: 0,
            low: u64::from(place),
            width: 1,
            outside_above: 0,
        },
    }
}

/// The bits between two bounds that run as the declaration does, and none where a bound is refused.
fn bits_between(bounds: Bounds, from: Option<u128>, to: Option<u128>) -> DrivenBits
    ensures { (range : DeclaredRange) → bounds.high ≡ range.high → bounds.low ≡ range.low → BoundsTakeRun range from to → places_of result ≡ places_between range from to }
{
    match (from, to) {
        (Some(from), Some(to)) => part_bits(bounds, from, to),
        _ => DrivenBits {
            outside_below: 0,
            low: 0,
            width: 0,
            outside_above: 0,
        },
    }
}

/// The bits of its signal that a select takes, if they are a run of them.
pub fn select_bits(
    alloc: Global,
    scope: &Scope<'_>,
    select: &Select,
) -> Result<DrivenBits, NoMemory>
    ensures { IfOk result (λ bits. TakesRun scope.now (select_of select.now) → places_of bits ≡ places_of_select scope.now (select_of select.now)) }
{
    let bounds = bounds_of(&scope.lookup(&select.name));
    match &select.index {
        Index::Whole => Ok(whole_bits(bounds)),
        Index::Bit(index) => {
            let number = number_of_constant(alloc, index, scope)?;
            let place = place_of_number(bounds, number);
            Ok(bit_at(place))
        }
        Index::Part(from, to) => {
            let from = number_of_constant(alloc, from, scope)?;
            let to = number_of_constant(alloc, to, scope)?;
            Ok(bits_between(bounds, from, to))
        }
    }
}
