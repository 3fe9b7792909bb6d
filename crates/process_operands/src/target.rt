// The updates of an assignment, over the operands that were read for it.

ghost use Rattle.std.specs.Prelude.{◌≡◌, ◌≤◌, ◌<◌, ◌+◌, [], ◌∷◌, ◌++◌, map, length, drop, List, Option, None, option_map, IfOk, IfErr, OnOk, OnErr, vec_capacity};
ghost use Rattle.four_value.specs.Values.{LogicValue};
ghost use Rattle.v_design.specs.Plain.{expression_of, target_of, variable_of, update_of};
ghost use Rattle.v_design.specs.Sized.{IsSizedAssignment, IsSizedTarget};
ghost use Rattle.vf_base.specs.Lists.{AllHold};
ghost use Rattle.v_design.specs.Assignments.{target_width, targets_width, part_width, target_update, target_updates, part_update, read_index, read_indexes, read_assignment};
ghost use Rattle.v_design.specs.Expressions.{Needs, Has, place_of, part_indexes, part_places};
ghost use Rattle.vf_base.specs.Base.{object_number};
ghost use Rattle.process_operands.specs.Sought.{got};

use crate::expression::read_value;
use expr_eval::{is_signed, part_index, place_of_index, width_of_part, word_of_index};
use four_value::Vec4;
use v_design::{FlatExpr, FlatTarget, Update, VariableRef};
use vf_base::ObjectId;

/// The number of bits that a target takes.
pub fn width_of_target(target: &FlatTarget) -> u64
    ensures { result ≡ target_width (target_of target.now) }
{
    match target {
        FlatTarget::Whole(variable) => u64::from(variable.width),
        FlatTarget::Bit(_, _) => 1,
        FlatTarget::Part(_, from, to) => width_of_part(*from, *to),
        FlatTarget::Word(memory, _) => u64::from(memory.width),
    }
}

/// The number that a target's index spells; none where it has no index or the index spells none.
fn read_target_index(
    target: &FlatTarget,
    operands: &[Vec4],
    used: &mut usize,
) -> Result<Option<u128>, ObjectId>
    requires { IsSizedTarget (target_of target.now) }
    ensures has { IfOk result (λ index. read_index (target_of target.now) (drop used.old operands.now) ≡ Has index (drop used.new operands.now)) }
    ensures needs { IfErr result (λ object. read_index (target_of target.now) (drop used.old operands.now) ≡ Needs (object_number object)) }
{
    match target {
        FlatTarget::Whole(_) => Ok(None),
        FlatTarget::Bit(_, index) => {
            let value = read_value(index, operands, used)?;
            Ok(value.as_natural(is_signed(index)))
        }
        FlatTarget::Part(_, _, _) => Ok(None),
        FlatTarget::Word(_, index) => {
            let value = read_value(index, operands, used)?;
            Ok(value.as_natural(is_signed(index)))
        }
    }
}

/// The bits of a part that lie within the declared bounds, as one update; none where no bit does.
fn update_of_part(
    line: u32,
    variable: &VariableRef,
    from: u32,
    to: u32,
    value: Vec4,
) -> Option<Update>
    requires { length value ≡ part_width from to }
    ensures { option_map update_of result ≡ part_update line (object_number variable.now.object) (part_places variable.now.high variable.now.low from to) value }
{
    'bits: for bit in 0..u32::from(value.width()) {
        let index = u128::from(part_index(from, to, bit));
        match place_of_index(variable.high, variable.low, index) {
            None => {}
            Some(low) => {
                return Some(Update {
                    object: variable.object,
                    low,
                    value: value.part(bit, value.width() - bit as u8),
                    line,
                });
            }
        }
    }
    None
}

/// The update of a target with its part of the value; none where the index selects nothing.
pub fn update_of_target(
    line: u32,
    target: &FlatTarget,
    index: Option<u128>,
    value: Vec4,
) -> Option<Update>
    requires { length value ≡ target_width (target_of target.now) }
    ensures { option_map update_of result ≡ target_update line (target_of target.now) index value }
{
    match target {
        FlatTarget::Whole(variable) => Some(Update {
            object: variable.object,
            low: 0,
            value,
            line,
        }),
        FlatTarget::Bit(variable, _) => match index {
            None => None,
            Some(number) => match place_of_index(variable.high, variable.low, number) {
                None => None,
                Some(low) => Some(Update {
                    object: variable.object,
                    low,
                    value,
                    line,
                }),
            },
        },
        FlatTarget::Part(variable, from, to) => update_of_part(line, variable, *from, *to, value),
        FlatTarget::Word(memory, _) => match word_of_index(memory, index) {
            None => None,
            Some(object) => Some(Update {
                object,
                low: 0,
                value,
                line,
            }),
        },
    }
}

/// The number of bits that several targets take.
pub fn width_of_targets(targets: &[FlatTarget]) -> u64
    requires { targets_width (map target_of targets.now) ≤ 128 }
    ensures { result ≡ targets_width (map target_of targets.now) }
{
    let mut width = 0;
    'targets: for target in targets {
        width += width_of_target(target);
    }
    width
}

/// One update more, for which there is room.
pub fn put_update(updates: &mut Vec<Option<Update>>, update: Option<Update>)
    requires { length updates.old.items < vec_capacity updates.old }
    ensures items { updates.new.items ≡ updates.old.items ++ (update ∷ []) }
    ensures room { vec_capacity updates.old ≤ vec_capacity updates.new }
{
    match updates.push(update) {
        Ok(()) => {}
        Err(_) => unreachable!(),
    }
}

/// Each target's index, and its update with its part of the value, from the left.
fn read_targets(
    line: u32,
    targets: &[FlatTarget],
    bits: Vec4,
    operands: &[Vec4],
    used: &mut usize,
    updates: &mut Vec<Option<Update>>,
) -> Result<(), ObjectId>
    requires sized { AllHold IsSizedTarget (map target_of targets.now) }
    requires few { targets_width (map target_of targets.now) ≤ 128 }
    requires empty { updates.old.items ≡ [] }
    requires space { length targets.now ≤ vec_capacity updates.old }
    ensures has { OnOk result (got (λ indexes. target_updates line (map target_of targets.now) indexes bits) (read_indexes (map target_of targets.now)
        (drop used.old operands.now)) ≡ Has (map (option_map update_of) updates.new.items) (drop used.new operands.now)) }
    ensures needs { IfErr result (λ object. read_indexes (map target_of targets.now) (drop used.old operands.now) ≡ Needs (object_number object)) }
    ensures room { vec_capacity updates.old ≤ vec_capacity updates.new }
{
    let mut left = width_of_targets(targets);
    'targets: for target in targets {
        let index = read_target_index(target, operands, used)?;
        let width = width_of_target(target);
        left -= width;
        let part = bits.part(left as u32, width as u8);
        put_update(updates, update_of_target(line, target, index, part));
    }
    Ok(())
}

/// The updates of an assignment's targets, from the left, put into an empty list that has room for them. It takes no memory.
///
/// # Errors
///
/// The object that is to be read next, where an operand is missing; the list is empty then.
pub fn read_updates(
    line: u32,
    targets: &[FlatTarget],
    value: &FlatExpr,
    operands: &[Vec4],
    used: &mut usize,
    updates: &mut Vec<Option<Update>>,
) -> Result<(), ObjectId>
    requires sized { IsSizedAssignment (map target_of targets.now) (expression_of value.now) }
    requires empty { updates.old.items ≡ [] }
    requires space { length targets.now ≤ vec_capacity updates.old }
    ensures has { OnOk result (read_assignment line (map target_of targets.now) (expression_of value.now) (drop used.old operands.now) ≡ Has (map
        (option_map update_of) updates.new.items) (drop used.new operands.now)) }
    ensures needs { IfErr result (λ object. read_assignment line (map target_of targets.now) (expression_of value.now) (drop used.old operands.now) ≡ Needs (object_number object)) }
    ensures empty { OnErr result (updates.new.items ≡ []) }
    ensures room { vec_capacity updates.old ≤ vec_capacity updates.new }
{
    let bits = read_value(value, operands, used)?;
    match read_targets(line, targets, bits, operands, used, updates) {
        Ok(()) => Ok(()),
        Err(object) => {
            updates.clear();
            Err(object)
        }
    }
}
