// What targets are, and what is wrong with them.

ghost use Rattle.std.specs.Prelude.{◌≡◌, IfOk, map, option_map};
ghost use Rattle.vf_base.specs.Base.{source_place};
ghost use Rattle.v_tree.specs.Views.{select_of, target_of};
ghost use Rattle.v_names.specs.Faults.{first_fault};
ghost use Rattle.v_names.specs.Readings.{Reading, number_or};
ghost use Rattle.v_names.specs.ScopeViews.{entry_of};
ghost use Rattle.v_width.specs.Summaries.{found_fault};
ghost use Rattle.v_width.specs.Targets.{may_write, written_reading, target_select_reading, target_reading, within_most, target_width_in, assignment_faults, target_alone_faults, selects_reading};
ghost use Rattle.expr_sizes.specs.Answers.{IsOwnReading};
ghost use Rattle.v_width.specs.Targets as plain;
ghost use Rattle.expr_sizes.specs.TargetReadings.{writer_of, IsOneSelect, IsTargetReading, AreSelectsRead};

use crate::{OwnReading, select_reading, wider};
use std::alloc::Global;
use v_names::{Entry, Found, Scope};
use v_tree::{Select, Target};
use v_width::{Faults, bad_width, first_fault, no_faults, together, wrong_kind};
use vf_base::{NoMemory, Place};

/// Who assigns a target.
#[derive(Clone, Copy, Debug, PartialEq, Eq)]
pub enum Writer {
    /// A node: it writes nets.
    Node,
    /// A process: it writes variables.
    Process,
}

/// What a target is.
#[derive(Clone, Copy)]
pub struct TargetReading {
    /// Its width in bits; none where it is refused.
    pub width: Option<u8>,
    /// What is wrong with it.
    pub faults: Faults,
}

/// Whether a name may be written; one that isn't declared is refused elsewhere.
fn may_write(writer: Writer, entry: &Option<Entry>) -> bool
    ensures { result ≡ may_write (writer_of writer) (option_map entry_of entry.now) }
{
    match entry {
        None => true,
        Some(Entry::Net { .. }) => matches!(writer, Writer::Node),
        Some(Entry::Reg { .. }) => matches!(writer, Writer::Process),
        Some(Entry::Memory { .. }) => matches!(writer, Writer::Process),
        Some(Entry::Param(_, _)) => false,
        Some(Entry::RefusedParam) => false,
        Some(Entry::WaitingParam) => false,
        Some(Entry::Gate) => false,
        Some(Entry::Instance) => false,
    }
}

/// What a select is as a target, which it isn't where its name may not be written.
fn written(may: bool, place: Place, own: OwnReading) -> OwnReading
    ensures { (reading : Reading) → IsOwnReading reading own → IsOwnReading (written_reading may (source_place place) reading) result }
{
    if may {
        return own;
    }
    let wrong = wrong_kind(place);
    OwnReading {
        size: None,
        faults: Faults {
            all: wrong.all,
            other: wrong.other,
            inside: own.faults.inside,
            wrong_kind: true,
        },
    }
}

/// What a select is that is written.
fn written_select(
    alloc: Global,
    writer: Writer,
    select: &Select,
    scope: &Scope,
) -> Result<OwnReading, NoMemory>
    ensures { IfOk result (λ own. IsOwnReading (target_select_reading (writer_of writer) scope.now (select_of select.now)) own) }
{
    let own = select_reading(alloc, select, scope)?;
    let may = may_write(writer, &scope.lookup(&select.name));
    Ok(written(may, select.place, own))
}

/// One select.
fn one_select(own: OwnReading) -> TargetReading
    ensures { IsOneSelect own result }
{
    let width = match own.size {
        None => None,
        Some(size) => Some(size.width),
    };
    TargetReading {
        width,
        faults: own.faults,
    }
}

/// What selects are that are written, from the left; of their width 129 stands for any that is larger.
fn written_selects(
    alloc: Global,
    writer: Writer,
    selects: &[Select],
    scope: &Scope,
) -> Result<TargetReading, NoMemory>
    ensures { IfOk result (λ read. AreSelectsRead (selects_reading (writer_of writer) scope.now (map select_of selects.now)) read) }
{
    let mut width = Some(0);
    let mut faults = no_faults();
    'selects: for select in selects {
        let own = written_select(alloc, writer, select, scope)?;
        width = wider(width, own.size);
        faults = together(faults, own.faults);
    }
    Ok(TargetReading { width, faults })
}

/// Selects in braces, which are at most as wide as a vector.
fn joined(place: Place, selects: TargetReading) -> TargetReading
    ensures { (reading : plain.TargetReading) → AreSelectsRead reading selects → IsTargetReading (within_most (source_place place) reading) result }
{
    match selects.width {
        None => selects,
        Some(width) => {
            if width <= 128 {
                selects
            } else {
                TargetReading {
                    width: None,
                    faults: together(bad_width(place), selects.faults),
                }
            }
        }
    }
}

/// What a target is in a scope: its width, and what is wrong with it.
pub fn target_reading(
    alloc: Global,
    writer: Writer,
    target: &Target,
    scope: &Scope,
) -> Result<TargetReading, NoMemory>
    ensures { IfOk result (λ read. IsTargetReading (target_reading (writer_of writer) scope.now (target_of target.now)) read) }
{
    match target {
        Target::One(select) => {
            let own = written_select(alloc, writer, select, scope)?;
            Ok(one_select(own))
        }
        Target::Joined(place, selects) => {
            let read = written_selects(alloc, writer, selects.as_slice(), scope)?;
            Ok(joined(*place, read))
        }
    }
}

/// The width of a target in bits, 0 where it is refused.
pub fn target_width_in(
    alloc: Global,
    writer: Writer,
    target: &Target,
    scope: &Scope,
) -> Result<u8, NoMemory>
    ensures { IfOk result (λ width. width ≡ target_width_in (writer_of writer) scope.now (target_of target.now)) }
{
    let read = target_reading(alloc, writer, target, scope)?;
    Ok(width_or_zero(read.width))
}

/// A width, 0 where there is none.
fn width_or_zero(width: Option<u8>) -> u8
    ensures { result ≡ number_or 0 width }
{
    match width {
        None => 0,
        Some(width) => width,
    }
}

/// The first thing that is wrong with a target and its value, which are sized together.
pub fn first_assignment_fault(target: TargetReading, value: OwnReading) -> Option<Found>
    ensures { (reading : plain.TargetReading) (of_value : Reading) → IsTargetReading reading target → IsOwnReading of_value value →
        found_fault result ≡ first_fault (assignment_faults reading of_value) }
{
    first_fault(together(target.faults, value.faults))
}

/// The first thing that is wrong with a target alone.
pub fn first_target_fault(target: TargetReading) -> Option<Found>
    ensures { (reading : plain.TargetReading) → IsTargetReading reading target → found_fault result ≡ first_fault (target_alone_faults reading) }
{
    first_fault(target.faults)
}
