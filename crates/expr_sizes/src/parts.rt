// The parts of concatenations.

ghost use Rattle.std.specs.Prelude.{◌≡◌, ◌++◌, [], IfOk, option_map};
ghost use Rattle.vf_base.specs.Base.{source_place};
ghost use Rattle.v_names.specs.Readings.{Reading, part_before, concatenation_reading, replication_reading, alone_faults, PartsReading};
ghost use Rattle.v_names.specs.SizeViews.{size_of};
ghost use Rattle.v_width.specs.Summaries.{AreFaults};
ghost use Rattle.expr_sizes.specs.ExprReadings.{IsReading};
ghost use Rattle.expr_sizes.specs.PartReadings.{total_with, size_of_part, faults_of_part, AreReadSo, ArePartsRead};

use crate::reading::{ExprReading, refused, sized};
use std::alloc::Global;
use v_names::{Size, one_bit, repeated_size, size_within};
use v_width::{Faults, SizedExpr, apart, bad_width, together};
use vf_base::{NoMemory, Place};

/// The parts of a concatenation, each of them sized alone.
#[derive(Drop)]
pub(crate) struct ReadParts {
    /// Their width together, where 129 stands for any that is larger; none where a part is refused.
    pub(crate) total: Option<u8>,
    pub(crate) faults: Faults,
    pub(crate) trees: Vec<SizedExpr>,
}

/// A width together with that of one part more, where 129 stands for any that is larger; none where one of them has none.
pub fn wider(total: Option<u8>, size: Option<Size>) -> Option<u8>
    ensures { result ≡ total_with total (option_map size_of size) }
{
    match (total, size) {
        (Some(total), Some(size)) => {
            Some((u32::from(total) + u32::from(size.width)).min(129) as u8)
        }
        _ => None,
    }
}

/// The size of a part; a number that doesn't say its size has none.
fn part_size(unsized_number: bool, size: Option<Size>) -> Option<Size>
    ensures { option_map size_of result ≡ size_of_part unsized_number (option_map size_of size) }
{
    if unsized_number { None } else { size }
}

/// What is wrong with a part: a number that doesn't say its size may not be one.
fn part_faults(unsized_number: bool, place: Place, faults: Faults) -> Faults
    ensures { (reading : Reading) → AreFaults reading.here reading.inside faults → AreFaults [] (faults_of_part unsized_number (source_place place) reading) result }
{
    if unsized_number {
        apart(bad_width(place))
    } else {
        apart(faults)
    }
}

/// The parts with one more behind them.
pub(crate) fn add_part(
    parts: ReadParts,
    unsized_number: bool,
    place: Place,
    part: ExprReading,
) -> Result<ReadParts, NoMemory>
    ensures { IfOk result (λ after. (whole rest : PartsReading) (reading : Reading) → IsReading reading part →
        AreReadSo whole (part_before unsized_number (source_place place) reading rest) parts → AreReadSo whole rest after) }
{
    let size = part_size(unsized_number, part.size);
    let total = wider(parts.total, size);
    let own = part_faults(unsized_number, place, part.faults);
    let faults = together(parts.faults, own);
    let tree = part.tree_alone();
    let mut trees = parts.trees;
    trees.push(tree)?;
    Ok(ReadParts {
        total,
        faults,
        trees,
    })
}

/// A concatenation of parts.
pub(crate) fn concatenation_reading(place: Place, parts: ReadParts) -> ExprReading
    ensures { (read : PartsReading) → ArePartsRead read parts → IsReading (concatenation_reading (source_place place) read.width read.complete read.inside read.trees) result }
{
    match parts.total {
        None => refused(parts.faults),
        Some(total) => {
            let size = size_within(u64::from(total), false);
            let tree = SizedExpr::Concatenation {
                size: one_bit(),
                parts: parts.trees,
            };
            sized(place, size, parts.faults, tree)
        }
    }
}

/// So many times the parts; none is no number of times, which has these faults where it is sized alone.
pub(crate) fn replication_reading(
    place: Place,
    count: Option<u128>,
    times: Faults,
    parts: ReadParts,
) -> ExprReading
    ensures { (read : PartsReading) (counted : Reading) → ArePartsRead read parts → AreFaults [] (alone_faults counted) times →
        IsReading (replication_reading (source_place place) count read.width read.complete (read.inside ++ alone_faults counted) read.trees) result }
{
    let faults = together(parts.faults, times);
    match count {
        None => refused(faults),
        Some(count) => match parts.total {
            None => refused(faults),
            Some(total) => {
                let size = repeated_size(Some(count), Some(total));
                let tree = SizedExpr::Replication {
                    size: one_bit(),
                    count,
                    parts: parts.trees,
                };
                sized(place, size, faults, tree)
            }
        },
    }
}
