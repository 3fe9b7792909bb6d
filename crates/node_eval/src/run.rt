// The statements of a block.

ghost use Rattle.std.specs.Prelude.{◌≡◌, ◌≤◌, ◌<◌, ℕ, Bool, true, [], map, length, Option, option_map, IfSome};
ghost use Rattle.four_value.specs.Values.{is_true};
ghost use Rattle.v_design.specs.Plain.{expression_of, expressions_of, statement_of, target_of, update_of};
ghost use Rattle.v_design.specs.PlainLemmas.{statements_of, items_of};
ghost use Rattle.v_design.specs.Trees.{Statement, Block, Case};
ghost use Rattle.v_design.specs.Assignments.{value_at, assigned, index_value, target_updates, targets_width, some_label_matches, label_values, run_statement, run_statements, run_items};
ghost use Rattle.v_design.specs.Expressions.{value_of};
ghost use Rattle.v_design.specs.Reads.{named_in, named_in_parts, named_in_targets, named_by_items, targets_objects};
ghost use Rattle.vf_base.specs.Lists.{has, AllHold};
ghost use Rattle.v_design.specs.Sized.{IsSized, IsSizedAssignment, AreLabels, AreSizedItems, levels_of, levels_of_parts, levels_of_items, levels_of_targets, levels_of_assignment, IsSizedTarget};
ghost use Rattle.vf_base.specs.Base.{object_number, SourcePlace};
ghost use Rattle.expr_eval.specs.Operands.{AreThere};
ghost use Rattle.process_operands.specs.Choices.{chosen_by};
ghost use Rattle.node_eval.specs.Overlaid.{overlaid};
ghost use Rattle.node_eval.specs.Running.{MayRun};

use crate::block_assign::{find_updates, write_updates};
use crate::overlay::{Frame, Overlay};
use crate::tools::Tools;
use expr_eval::{Stack, eval};
use four_value::{CaseKind, Truth, Vec4, label_matches};
use v_design::{CaseItem, FlatExpr, FlatStmt, FlatTarget, Values};
use vf_base::Place;

/// Whether a value is true as a condition.
fn holds(value: Vec4) -> bool
    ensures { result ≡ is_true value }
{
    match value.truth() {
        Truth::True => true,
        Truth::False => false,
        Truth::Unknown => false,
    }
}

/// Whether one of some labels matches a value.
fn matches_label<V: Values>(
    kind: CaseKind,
    value: Vec4,
    labels: &[FlatExpr],
    values: &V,
    stack: &mut Stack,
) -> bool
    requires sized { (signed : Bool) × AreLabels (length value) signed (expressions_of labels.now) }
    requires there { AreThere (V.values values.now) (named_in_parts (expressions_of labels.now)) }
    requires levels { levels_of_parts (expressions_of labels.now) ≤ stack.old.depth }
    ensures matches { result ≡ some_label_matches kind value (label_values (value_at (V.values values.now)) (expressions_of labels.now)) }
    ensures levels { stack.new.depth ≡ stack.old.depth }
{
    'labels: for label in labels {
        let own = eval(label, values, stack);
        if label_matches(kind, value, own) {
            return true;
        }
    }
    false
}

/// Which item of a case has the first label that matches a value; none where the default is chosen.
fn find_item<V: Values>(
    kind: CaseKind,
    value: Vec4,
    items: &[CaseItem],
    values: &V,
    stack: &mut Stack,
) -> Option<usize>
    requires sized { (signed : Bool) × AreSizedItems (length value) signed (items_of items.now) }
    requires there { AreThere (V.values values.now) (named_by_items (items_of items.now)) }
    requires levels { levels_of_items (items_of items.now) ≤ stack.old.depth }
    ensures within { IfSome result (λ number. number < length items.now) }
    ensures chosen { (default : Statement) →
        run_items kind value (items_of items.now) (V.values values.now) (run_statement default (V.values values.now)) ≡ run_statement (chosen_by
        (items_of items.now) default result) (V.values values.now) }
    ensures levels { stack.new.depth ≡ stack.old.depth }
{
    'items: for (number, item) in items.iter().enumerate() {
        if matches_label(kind, value, &item.labels, values, stack) {
            return Some(number);
        }
    }
    None
}

/// The value of an expression over the values that a block sees.
fn eval_over<V: Values>(
    expr: &FlatExpr,
    frame: &Frame<'_, V>,
    held: &[Vec4],
    tools: &mut Tools,
) -> Vec4
    requires alike { length frame.now.outputs.now ≤ length held.now }
    requires sized { IsSized (expression_of expr.now) }
    requires there { AreThere (overlaid frame.now.outputs.now held.now (V.values frame.now.values.now)) (named_in (expression_of expr.now)) }
    requires levels { levels_of (expression_of expr.now) ≤ 256 }
    ensures { result ≡ value_of (value_at (overlaid frame.now.outputs.now held.now (V.values frame.now.values.now))) (expression_of expr.now) }
{
    let overlay = Overlay { frame, held };
    eval(expr, &overlay, &mut tools.stack)
}

/// Which item of a case is chosen over the values that a block sees; none where the default is.
fn choose<V: Values>(
    kind: CaseKind,
    value: &FlatExpr,
    items: &[CaseItem],
    frame: &Frame<'_, V>,
    held: &[Vec4],
    tools: &mut Tools,
) -> Option<usize>
    requires alike { length frame.now.outputs.now ≤ length held.now }
    requires may { (place : SourcePlace) × (default : Statement) ×
        MayRun (overlaid frame.now.outputs.now held.now (V.values frame.now.values.now)) frame.now.outputs.now (Case place kind (expression_of value.now) (items_of items.now) default) }
    ensures within { IfSome result (λ number. number < length items.now) }
    ensures chosen { (place : SourcePlace) (default : Statement) →
        run_statement (Case place kind (expression_of value.now) (items_of items.now) default) (overlaid frame.now.outputs.now held.now
        (V.values frame.now.values.now)) ≡ run_statement (chosen_by (items_of items.now) default result) (overlaid frame.now.outputs.now held.now (V.values frame.now.values.now)) }
{
    let bits = eval_over(value, frame, held, tools);
    let overlay = Overlay { frame, held };
    find_item(kind, bits, items, &overlay, &mut tools.stack)
}

/// A blocking assignment: its value, its indexes and its updates are fixed, then the updates are written in order.
fn assign<V: Values>(
    place: Place,
    targets: &[FlatTarget],
    value: &FlatExpr,
    frame: &Frame<'_, V>,
    held: &mut [Vec4],
    tools: &mut Tools,
)
    requires alike { length frame.now.outputs.now ≤ length held.old }
    requires sized { IsSizedAssignment (map target_of targets.now) (expression_of value.now) }
    requires there { AreThere (overlaid frame.now.outputs.now held.old (V.values frame.now.values.now)) (named_in_targets (map target_of targets.now)) }
    requires value_there { AreThere (overlaid frame.now.outputs.now held.old (V.values frame.now.values.now)) (named_in (expression_of value.now)) }
    requires written { (object : ℕ) → has (targets_objects (map target_of targets.now)) object ≡ true → has (map object_number frame.now.outputs.now) object ≡ true }
    requires levels { levels_of_assignment (map target_of targets.now) (expression_of value.now) ≤ 256 }
    ensures { overlaid frame.now.outputs.now held.new (V.values frame.now.values.now) ≡ assigned place.line (overlaid frame.now.outputs.now held.old
        (V.values frame.now.values.now)) (map target_of targets.now) (expression_of value.now) }
{
    let bits = eval_over(value, frame, held, tools);
    tools.updates.clear();
    find_over(place.line, targets, bits, frame, held, tools);
    write_updates(&tools.updates, frame, held);
}

/// The updates of an assignment's targets over the values that a block sees.
fn find_over<V: Values>(
    line: u32,
    targets: &[FlatTarget],
    bits: Vec4,
    frame: &Frame<'_, V>,
    held: &[Vec4],
    tools: &mut Tools,
)
    requires alike { length frame.now.outputs.now ≤ length held.now }
    requires sized { AllHold IsSizedTarget (map target_of targets.now) }
    requires few { targets_width (map target_of targets.now) ≤ 128 }
    requires there { AreThere (overlaid frame.now.outputs.now held.now (V.values frame.now.values.now)) (named_in_targets (map target_of targets.now)) }
    requires levels { levels_of_targets (map target_of targets.now) ≤ 256 }
    requires empty { tools.old.updates.items ≡ [] }
    ensures { map (option_map update_of) tools.new.updates.items ≡ target_updates line (map target_of targets.now) (map (index_value
        (overlaid frame.now.outputs.now held.now (V.values frame.now.values.now))) (map target_of targets.now)) bits }
{
    let overlay = Overlay { frame, held };
    find_updates(
        line,
        targets,
        bits,
        &overlay,
        &mut tools.updates,
        &mut tools.stack,
    );
}

/// Runs a statement: what it assigns is put in front of the values that it sees.
///
/// A statement that no block of combinational form has (a loop, a delay, a wait, a nonblocking assignment) leaves all values, as in the definition.
#[cycle(run)]
pub(crate) fn run<V: Values>(
    statement: &FlatStmt,
    frame: &Frame<'_, V>,
    held: &mut [Vec4],
    tools: &mut Tools,
)
    requires alike { length frame.now.outputs.now ≤ length held.old }
    requires may { MayRun (overlaid frame.now.outputs.now held.old (V.values frame.now.values.now)) frame.now.outputs.now (statement_of statement.now) }
    ensures { overlaid frame.now.outputs.now held.new (V.values frame.now.values.now) ≡ run_statement (statement_of statement.now)
        (overlaid frame.now.outputs.now held.old (V.values frame.now.values.now)) }
{
    match statement {
        FlatStmt::Null => {}
        FlatStmt::Block { statements, .. } => run_all(statements, frame, held, tools),
        FlatStmt::If {
            condition,
            first,
            second,
            ..
        } => {
            if holds(eval_over(condition, frame, held, tools)) {
                run(first, frame, held, tools);
            } else {
                run(second, frame, held, tools);
            }
        }
        FlatStmt::Case {
            kind,
            value,
            items,
            default,
            ..
        } => match choose(*kind, value, items, frame, held, tools) {
            Some(number) => run(&items[number].statement, frame, held, tools),
            None => run(default, frame, held, tools),
        },
        FlatStmt::Blocking {
            place,
            targets,
            value,
            ..
        } => assign(*place, targets, value, frame, held, tools),
        FlatStmt::For { .. } => {}
        FlatStmt::While { .. } => {}
        FlatStmt::Repeat { .. } => {}
        FlatStmt::Forever { .. } => {}
        FlatStmt::Delay { .. } => {}
        FlatStmt::EventControl { .. } => {}
        FlatStmt::Wait { .. } => {}
        FlatStmt::Nonblocking { .. } => {}
        FlatStmt::Finish { .. } => {}
    }
}

/// Runs several statements in order.
#[cycle(run)]
fn run_all<V: Values>(
    statements: &[FlatStmt],
    frame: &Frame<'_, V>,
    held: &mut [Vec4],
    tools: &mut Tools,
)
    requires alike { length frame.now.outputs.now ≤ length held.old }
    requires may { MayRun (overlaid frame.now.outputs.now held.old (V.values frame.now.values.now)) frame.now.outputs.now (Block (statements_of statements.now)) }
    ensures { overlaid frame.now.outputs.now held.new (V.values frame.now.values.now) ≡ run_statements (statements_of statements.now)
        (overlaid frame.now.outputs.now held.old (V.values frame.now.values.now)) }
{
    'statements: for statement in statements {
        run(statement, frame, held, tools);
    }
}
