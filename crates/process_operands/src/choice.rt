// The item that a case chooses, over the operands that were read for it.

ghost use Rattle.std.specs.Prelude.{◌≡◌, map, length, drop, List, Option, Bool, IfOk, IfErr};
ghost use Rattle.v_design.specs.Plain.{expression_of, expressions_of};
ghost use Rattle.v_design.specs.PlainLemmas.{items_of};
ghost use Rattle.v_design.specs.Sized.{IsSized, AreLabels, AreSizedItems};
ghost use Rattle.v_design.specs.Trees.{Statement};
ghost use Rattle.v_design.specs.Assignments.{some_label_matches};
ghost use Rattle.v_design.specs.Processes.{read_case, read_items};
ghost use Rattle.v_design.specs.Expressions.{Needs, Has, read_each, width_of, sign_of};
ghost use Rattle.vf_base.specs.Base.{object_number};
ghost use Rattle.process_operands.specs.Sought.{got};
ghost use Rattle.process_operands.specs.Choices.{chosen_by, choice_after};

use crate::expression::read_value;
use four_value::{CaseKind, Vec4, label_matches};
use v_design::{CaseItem, FlatExpr};
use vf_base::ObjectId;

/// Which item of a case has the first label that matches; none where the default is chosen. All labels are read.
///
/// # Errors
///
/// The object that is to be read next, where an operand is missing.
pub fn read_choice(
    kind: CaseKind,
    value: &FlatExpr,
    items: &[CaseItem],
    operands: &[Vec4],
    used: &mut usize,
) -> Result<Option<usize>, ObjectId>
    requires value { IsSized (expression_of value.now) }
    requires labels { AreSizedItems (width_of (expression_of value.now)) (sign_of (expression_of value.now)) (items_of items.now) }
    ensures has { IfOk result (λ choice. (default : Statement) →
        read_case kind (expression_of value.now) (items_of items.now) default (drop used.old operands.now) ≡ Has (chosen_by (items_of items.now) default choice) (drop used.new operands.now)) }
    ensures needs { IfErr result (λ object. (default : Statement) → read_case kind (expression_of value.now) (items_of items.now) default (drop used.old operands.now) ≡ Needs (object_number object)) }
{
    let bits = read_value(value, operands, used)?;
    let choice = read_item(kind, bits, items, operands, used)?;
    Ok(choice)
}

/// Which item of a case has the first label that matches a value.
fn read_item(
    kind: CaseKind,
    value: Vec4,
    items: &[CaseItem],
    operands: &[Vec4],
    used: &mut usize,
) -> Result<Option<usize>, ObjectId>
    requires { (signed : Bool) × AreSizedItems (length value) signed (items_of items.now) }
    ensures has { IfOk result (λ choice. (default : Statement) →
        read_items kind value (items_of items.now) default (drop used.old operands.now) ≡ Has (chosen_by (items_of items.now) default choice) (drop used.new operands.now)) }
    ensures needs { IfErr result (λ object. (default : Statement) → read_items kind value (items_of items.now) default (drop used.old operands.now) ≡ Needs (object_number object)) }
{
    let mut choice: Option<usize> = None;
    'items: for (number, item) in items.iter().enumerate() {
        let matches = read_labels(kind, value, &item.labels, operands, used)?;
        choice = first_choice(choice, matches, number);
    }
    Ok(choice)
}

/// The item that is chosen already, else the one of this number where it matches.
fn first_choice(choice: Option<usize>, matches: bool, number: usize) -> Option<usize>
    ensures { result ≡ choice_after choice matches number }
{
    match choice {
        Some(earlier) => Some(earlier),
        None => { if matches { Some(number) } else { None } }
    }
}

/// Whether a label of an item matches a value.
fn read_labels(
    kind: CaseKind,
    value: Vec4,
    labels: &[FlatExpr],
    operands: &[Vec4],
    used: &mut usize,
) -> Result<bool, ObjectId>
    requires { (signed : Bool) × AreLabels (length value) signed (expressions_of labels.now) }
    ensures has { IfOk result (λ matches. got (some_label_matches kind value) (read_each (expressions_of labels.now) (drop used.old operands.now)) ≡ Has matches (drop used.new operands.now)) }
    ensures needs { IfErr result (λ object. read_each (expressions_of labels.now) (drop used.old operands.now) ≡ Needs (object_number object)) }
{
    let mut matches = false;
    'labels: for label in labels {
        let own = read_value(label, operands, used)?;
        if label_matches(kind, value, own) {
            matches = true;
        }
    }
    Ok(matches)
}
