// Blocking assignments within a block.

ghost use Rattle.std.specs.Prelude.{◌≡◌, ◌≤◌, ◌<◌, ◌++◌, ◌∷◌, [], ℕ, List, map, length, fold, option_map, vec_capacity, get_or};
ghost use Rattle.four_value.specs.Values.{LogicValue};
ghost use Rattle.vf_base.specs.Lists.{AllHold};
ghost use Rattle.v_design.specs.Plain.{target_of, update_of};
ghost use Rattle.v_design.specs.Assignments.{index_value, target_updates, targets_width, updated};
ghost use Rattle.v_design.specs.Reads.{named_in_target, named_in_targets};
ghost use Rattle.v_design.specs.Sized.{IsSizedTarget, levels_of_target, levels_of_targets};
ghost use Rattle.vf_base.specs.Base.{object_number};
ghost use Rattle.expr_eval.specs.Operands.{AreThere};
ghost use Rattle.node_eval.specs.Overlaid.{overlaid};
ghost use Rattle.node_eval.specs.WriteLaws.{IsAmong};

use crate::overlay::Frame;
use expr_eval::{Stack, eval, is_signed};
use four_value::Vec4;
use process_operands::{put_update, update_of_target, width_of_target, width_of_targets};
use v_design::{FlatTarget, Update, Values};

/// The number that a target's index spells; none where it has no index or the index spells none.
fn index_of<V: Values>(target: &FlatTarget, values: &V, stack: &mut Stack) -> Option<u128>
    requires sized { IsSizedTarget (target_of target.now) }
    requires there { AreThere (V.values values.now) (named_in_target (target_of target.now)) }
    requires levels { levels_of_target (target_of target.now) ≤ stack.old.depth }
    ensures index { result ≡ index_value (V.values values.now) (target_of target.now) }
    ensures levels { stack.new.depth ≡ stack.old.depth }
{
    match target {
        FlatTarget::Whole(_) => None,
        FlatTarget::Bit(_, index) => eval(index, values, stack).as_natural(is_signed(index)),
        FlatTarget::Part(_, _, _) => None,
        FlatTarget::Word(_, index) => eval(index, values, stack).as_natural(is_signed(index)),
    }
}

/// Each target's update with its part of the value, from the left, put into an empty list that has room for them.
pub(crate) fn find_updates<V: Values>(
    line: u32,
    targets: &[FlatTarget],
    bits: Vec4,
    values: &V,
    updates: &mut Vec<Option<Update>>,
    stack: &mut Stack,
)
    requires sized { AllHold IsSizedTarget (map target_of targets.now) }
    requires few { targets_width (map target_of targets.now) ≤ 128 }
    requires there { AreThere (V.values values.now) (named_in_targets (map target_of targets.now)) }
    requires levels { levels_of_targets (map target_of targets.now) ≤ stack.old.depth }
    requires empty { updates.old.items ≡ [] }
    requires space { 128 ≤ vec_capacity updates.old }
    ensures found { map (option_map update_of) updates.new.items ≡ target_updates line (map target_of targets.now) (map (index_value (V.values values.now)) (map target_of targets.now)) bits }
    ensures space { vec_capacity updates.old ≤ vec_capacity updates.new }
    ensures levels { stack.new.depth ≡ stack.old.depth }
{
    let mut left = width_of_targets(targets);
    'targets: for target in targets {
        let index = index_of(target, values, stack);
        let width = width_of_target(target);
        left -= width;
        let part = bits.part(left as u32, width as u8);
        put_update(updates, update_of_target(line, target, index, part));
    }
}

/// One update of the values in front.
fn write_update<V: Values>(update: &Option<Update>, frame: &Frame<'_, V>, held: &mut [Vec4])
    requires alike { length frame.now.outputs.now ≤ length held.old }
    requires among { IsAmong (map object_number frame.now.outputs.now) (option_map update_of update.now) }
    ensures { overlaid frame.now.outputs.now held.new (V.values frame.now.values.now) ≡ updated (overlaid frame.now.outputs.now held.old
        (V.values frame.now.values.now)) (option_map update_of update.now) }
{
    match update {
        None => {}
        Some(update) => match frame.place_of(update.object) {
            Some(place) => held[place] = held[place].place(update.low, update.value),
            None => unreachable!(),
        },
    }
}

/// Some updates of the values in front, in order.
pub(crate) fn write_updates<V: Values>(
    updates: &[Option<Update>],
    frame: &Frame<'_, V>,
    held: &mut [Vec4],
)
    requires alike { length frame.now.outputs.now ≤ length held.old }
    requires among { AllHold (IsAmong (map object_number frame.now.outputs.now)) (map (option_map update_of) updates.now) }
    ensures { overlaid frame.now.outputs.now held.new (V.values frame.now.values.now) ≡ fold updated (overlaid frame.now.outputs.now held.old
        (V.values frame.now.values.now)) (map (option_map update_of) updates.now) }
{
    'updates: for update in updates {
        write_update(update, frame, held);
    }
}
