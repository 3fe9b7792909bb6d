// Names, and names with what stands in brackets behind them.

ghost use Rattle.std.specs.Prelude.{true, [], List, option_map, length, IfOk};
ghost use Rattle.vf_base.specs.Base.{source_place};
ghost use Rattle.v_names.specs.Faults.{Fault};
ghost use Rattle.v_design.specs.Sized.{span};
ghost use Rattle.v_names.specs.Readings.{Reading, alone_faults, tree_alone, wrong_reading, is_signed_number, sized_reading, number_reading};
ghost use Rattle.v_names.specs.Readings.{name_reading, bit_reading, indexed_reading, part_if, runs_alike, part_reading, ranged_reading};
ghost use Rattle.v_names.specs.ScopeViews.{entry_of};
ghost use Rattle.v_names.specs.SizedTrees.{SizedConstant, SizedName, SizedWord};
ghost use Rattle.v_width.specs.Summaries.{AreFaults};
ghost use Rattle.expr_sizes.specs.ExprReadings.{IsReading};
ghost use Rattle.expr_sizes.specs.Bounds.{bounds_of};

use crate::reading::{ExprReading, alone_faults, misused, refused, sized, unvalued};
use four_value::Vec4;
use std::alloc::Global;
use v_names::{Entry, is_signed_number, one_bit, runs_alike, size_within, span, width_between};
use v_tree::NumberForm;
use v_width::{Faults, SizedExpr, apart, no_faults};
use vf_base::{NoMemory, Place, Text};

/// A value alone, as that of a number or of a parameter.
fn constant_reading(place: Place, value: Vec4, signed: bool) -> ExprReading
    ensures { IsReading (sized_reading (source_place place) (length value) signed true [] (λ width whole. SizedConstant width whole value)) result }
{
    let size = size_within(u64::from(value.width()), signed);
    let tree = SizedExpr::Constant {
        size: one_bit(),
        value,
    };
    sized(place, size, no_faults(), tree)
}

/// A number.
pub(crate) fn number_reading(place: Place, form: NumberForm, value: Vec4) -> ExprReading
    ensures { IsReading (number_reading (source_place place) form value) result }
{
    constant_reading(place, value, is_signed_number(form, value))
}

/// A name alone that is used as what it isn't.
fn misused_alone(place: Place) -> ExprReading
    ensures { IsReading (wrong_reading (source_place place) []) result }
{
    misused(place, no_faults())
}

/// A vector alone, with the indexes of its first and its last bit.
fn vector_reading(
    alloc: Global,
    place: Place,
    name: &Text,
    high: u32,
    low: u32,
    signed: bool,
) -> Result<ExprReading, NoMemory>
    ensures { IfOk result (λ read. IsReading (sized_reading (source_place place) (span high low) signed true [] (λ w whole. SizedName w whole name.now)) read) }
{
    let size = size_within(span(high, low), signed);
    let name = Text::from_bytes(alloc, name.as_bytes())?;
    let tree = SizedExpr::Name {
        size: one_bit(),
        name,
    };
    Ok(sized(place, size, no_faults(), tree))
}

/// A name alone.
pub(crate) fn name_reading(
    alloc: Global,
    entry: &Option<Entry>,
    place: Place,
    name: &Text,
) -> Result<ExprReading, NoMemory>
    ensures { IfOk result (λ read. IsReading (name_reading (option_map entry_of entry.now) (source_place place) name.now) read) }
{
    match entry {
        None => Ok(refused(no_faults())),
        Some(Entry::Param(value, signed)) => Ok(constant_reading(place, *value, *signed)),
        Some(Entry::RefusedParam) => Ok(unvalued()),
        Some(Entry::WaitingParam) => Ok(unvalued()),
        Some(
            Entry::Net {
                high,
                low,
                signed,
                ..
            },
        ) => {
            let read = vector_reading(alloc, place, name, *high, *low, *signed)?;
            Ok(read)
        }
        Some(
            Entry::Reg {
                high,
                low,
                signed,
                ..
            },
        ) => {
            let read = vector_reading(alloc, place, name, *high, *low, *signed)?;
            Ok(read)
        }
        Some(Entry::Memory { .. }) => Ok(misused_alone(place)),
        Some(Entry::Gate) => Ok(misused_alone(place)),
        Some(Entry::Instance) => Ok(misused_alone(place)),
    }
}

/// A bit of a vector, which a name that was declared without a range hasn't.
fn bit_reading(
    alloc: Global,
    ranged: bool,
    place: Place,
    name: &Text,
    index: ExprReading,
) -> Result<ExprReading, NoMemory>
    ensures { IfOk result (λ read. (at : Reading) → IsReading at index → IsReading (bit_reading ranged (source_place place) name.now at) read) }
{
    if !ranged {
        return Ok(misused(place, alone_faults(index)));
    }
    let inside = apart(index.faults);
    let alone = index.tree_alone();
    let bit = Some(one_bit());
    let index = Box::new(alloc, alone)?;
    let name = Text::from_bytes(alloc, name.as_bytes())?;
    Ok(ExprReading {
        size: bit,
        faults: inside,
        tree: SizedExpr::BitSelect {
            size: one_bit(),
            name,
            index,
        },
    })
}

/// A word of a memory, with the indexes of its first and its last bit.
fn word_reading(
    alloc: Global,
    place: Place,
    name: &Text,
    high: u32,
    low: u32,
    signed: bool,
    index: ExprReading,
) -> Result<ExprReading, NoMemory>
    ensures { IfOk result (λ read. (at : Reading) → IsReading at index →
        IsReading (sized_reading (source_place place) (span high low) signed at.complete (alone_faults at) (λ w whole. SizedWord w whole name.now (tree_alone at))) read) }
{
    let size = size_within(span(high, low), signed);
    let inside = apart(index.faults);
    let alone = index.tree_alone();
    let index = Box::new(alloc, alone)?;
    let name = Text::from_bytes(alloc, name.as_bytes())?;
    let tree = SizedExpr::WordSelect {
        size: one_bit(),
        name,
        index,
    };
    Ok(sized(place, size, inside, tree))
}

/// A name with an index: a bit of a vector, or a word of a memory.
pub(crate) fn indexed_reading(
    alloc: Global,
    entry: &Option<Entry>,
    place: Place,
    name: &Text,
    index: ExprReading,
) -> Result<ExprReading, NoMemory>
    ensures { IfOk result (λ read. (at : Reading) → IsReading at index → IsReading (indexed_reading (option_map entry_of entry.now) (source_place place) name.now at) read) }
{
    match entry {
        None => Ok(refused(alone_faults(index))),
        Some(Entry::Net { ranged, .. }) => {
            let read = bit_reading(alloc, *ranged, place, name, index)?;
            Ok(read)
        }
        Some(Entry::Reg { ranged, .. }) => {
            let read = bit_reading(alloc, *ranged, place, name, index)?;
            Ok(read)
        }
        Some(
            Entry::Memory {
                high,
                low,
                signed,
                ..
            },
        ) => {
            let read = word_reading(alloc, place, name, *high, *low, *signed, index)?;
            Ok(read)
        }
        Some(Entry::Param(_, _)) => Ok(misused(place, alone_faults(index))),
        Some(Entry::RefusedParam) => Ok(misused(place, alone_faults(index))),
        Some(Entry::WaitingParam) => Ok(misused(place, alone_faults(index))),
        Some(Entry::Gate) => Ok(misused(place, alone_faults(index))),
        Some(Entry::Instance) => Ok(misused(place, alone_faults(index))),
    }
}

/// The declared bounds of a vector.
#[derive(Clone, Copy)]
pub(crate) struct VectorBounds {
    pub(crate) ranged: bool,
    pub(crate) high: u32,
    pub(crate) low: u32,
}

/// A part of a vector between two numbers: it runs as the declaration does.
fn part_between(
    alloc: Global,
    bounds: VectorBounds,
    place: Place,
    name: &Text,
    inside: Faults,
    from: u128,
    to: u128,
) -> Result<ExprReading, NoMemory>
    ensures { IfOk result (λ read. (faults : List Fault) → AreFaults [] faults inside → IsReading (part_if (runs_alike (bounds_of bounds) from to) (source_place place) name.now faults from to) read) }
{
    if !runs_alike(bounds.high, bounds.low, from, to) {
        return Ok(misused(place, inside));
    }
    let name = Text::from_bytes(alloc, name.as_bytes())?;
    let tree = SizedExpr::PartSelect {
        size: one_bit(),
        name,
        from,
        to,
    };
    Ok(sized(place, width_between(from, to), inside, tree))
}

/// A part of a vector, which a name that was declared without a range hasn't; none of its bounds is a number where that bound is refused.
fn part_reading(
    alloc: Global,
    bounds: VectorBounds,
    place: Place,
    name: &Text,
    inside: Faults,
    from: Option<u128>,
    to: Option<u128>,
) -> Result<ExprReading, NoMemory>
    ensures { IfOk result (λ read. (faults : List Fault) → AreFaults [] faults inside → IsReading (part_reading bounds.ranged (bounds_of bounds) (source_place place) name.now faults from to) read) }
{
    if !bounds.ranged {
        return Ok(misused(place, inside));
    }
    match from {
        None => Ok(refused(inside)),
        Some(from) => match to {
            None => Ok(refused(inside)),
            Some(to) => {
                let read = part_between(alloc, bounds, place, name, inside, from, to)?;
                Ok(read)
            }
        },
    }
}

/// A name with two bounds.
pub(crate) fn ranged_reading(
    alloc: Global,
    entry: &Option<Entry>,
    place: Place,
    name: &Text,
    inside: Faults,
    from: Option<u128>,
    to: Option<u128>,
) -> Result<ExprReading, NoMemory>
    ensures { IfOk result (λ read. (faults : List Fault) → AreFaults [] faults inside → IsReading (ranged_reading (option_map entry_of entry.now) (source_place place) name.now faults from to) read) }
{
    match entry {
        None => Ok(refused(inside)),
        Some(
            Entry::Net {
                ranged,
                high,
                low,
                ..
            },
        ) => {
            let bounds = VectorBounds {
                ranged: *ranged,
                high: *high,
                low: *low,
            };
            let read = part_reading(alloc, bounds, place, name, inside, from, to)?;
            Ok(read)
        }
        Some(
            Entry::Reg {
                ranged,
                high,
                low,
                ..
            },
        ) => {
            let bounds = VectorBounds {
                ranged: *ranged,
                high: *high,
                low: *low,
            };
            let read = part_reading(alloc, bounds, place, name, inside, from, to)?;
            Ok(read)
        }
        Some(Entry::Param(_, _)) => Ok(misused(place, inside)),
        Some(Entry::RefusedParam) => Ok(misused(place, inside)),
        Some(Entry::WaitingParam) => Ok(misused(place, inside)),
        Some(Entry::Memory { .. }) => Ok(misused(place, inside)),
        Some(Entry::Gate) => Ok(misused(place, inside)),
        Some(Entry::Instance) => Ok(misused(place, inside)),
    }
}
