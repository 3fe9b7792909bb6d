// Statements of their parts.

ghost use Rattle.std.specs.Prelude.{◌≡◌, IfOk, map, option_map};
ghost use Rattle.vf_base.specs.Base.{source_place};
ghost use Rattle.v_design.specs.Plain.{expression_of, target_of, statement_of};
ghost use Rattle.v_design.specs.PlainLemmas.{items_of};
ghost use Rattle.v_design.specs.Trees.{If, Case, For, While, Repeat, Wait, EventControl, Delay, Blocking, Nonblocking};
ghost use Rattle.v_tree.specs.Views as source;
ghost use Rattle.v_names.specs.Readings.{reading_of, tree_at};
ghost use Rattle.v_names.specs.SizedTrees.{over_objects};
ghost use Rattle.v_names.specs.SizeViews.{size_of};
ghost use Rattle.v_elab.specs.Statements.{Meaning as PlainMeaning, targets_over, alone_expression, assigned_expression, delay_number, delay_or_zero, wait_entries};
ghost use Rattle.object_statements.specs.Meanings.{IsMeaning};
ghost use Rattle.object_expr.specs.Narrow.{IsNarrow};
ghost use Rattle.object_statements.specs.Texts.{HasMeaning, IsSizedRead, IsSizedWrite, IsSizedText, AreNarrowWaits};
ghost use Rattle.v_design.specs.Sized.{IsDelay, IsDelayIf};

use crate::cases::expr_at;
use crate::delays::{delay_if, delay_or_zero, delay_over};
use crate::meaning::{Meaning, expr_alone, expr_assigned, targets_over};
use crate::waits::wait_entries;
use four_value::CaseKind;
use std::alloc::Global;
use v_copy::both;
use v_design::{CaseItem as FlatItem, FlatExpr, FlatStmt, FlatTarget};
use v_names::Size;
use v_tree::{Expr, Stmt, Target, Waits};
use vf_base::{NoMemory, Place, Seq};

/// The two assignments and the condition at the head of a `for`.
#[derive(Clone, Copy)]
pub struct ForHead<'s> {
    pub first_target: &'s Target,
    pub first: &'s Expr,
    pub condition: &'s Expr,
    pub next_target: &'s Target,
    pub next: &'s Expr,
}

/// The targets of an assignment over objects, from the left, and its value.
#[derive(Drop)]
struct Assigned {
    targets: Vec<FlatTarget>,
    value: FlatExpr,
}

/// An assignment's targets and its value over objects.
fn assigned_over(
    alloc: Global,
    meaning: Meaning<'_, '_>,
    target: &Target,
    value: &Expr,
) -> Result<Assigned, NoMemory>
    requires { HasMeaning meaning (λ (m : PlainMeaning). IsSizedWrite m (source.target_of target.now) (source.expression_of value.now)) }
    ensures targets { IfOk result (λ assigned. (plain : PlainMeaning) → IsMeaning plain meaning.entry → map target_of assigned.targets.items ≡ targets_over plain (source.target_of target.now)) }
    ensures value { IfOk result (λ assigned. (plain : PlainMeaning) → IsMeaning plain meaning.entry →
        expression_of assigned.value ≡ assigned_expression plain (source.target_of target.now) (source.expression_of value.now)) }
{
    let targets = targets_over(alloc, meaning, target)?;
    let value = expr_assigned(alloc, meaning, target, value)?;
    Ok(Assigned { targets, value })
}

/// An `if` of both its branches.
pub fn if_over(
    alloc: Global,
    meaning: Meaning<'_, '_>,
    place: Place,
    condition: &Expr,
    first: Box<FlatStmt>,
    second: Box<FlatStmt>,
) -> Result<FlatStmt, NoMemory>
    requires { HasMeaning meaning (λ (m : PlainMeaning). IsSizedRead m (source.expression_of condition.now)) }
    ensures { IfOk result (λ flat. (plain : PlainMeaning) → IsMeaning plain meaning.entry →
        statement_of flat ≡ If (source_place place) (alone_expression plain (source.expression_of condition.now)) (statement_of first.value) (statement_of second.value)) }
{
    let condition = expr_alone(alloc, meaning, condition)?;
    Ok(FlatStmt::If {
        place,
        condition,
        first,
        second,
    })
}

/// A `case` of its items and its default, whose value has the size of the labels together with its own.
pub fn case_over(
    alloc: Global,
    meaning: Meaning<'_, '_>,
    place: Place,
    kind: CaseKind,
    value: &Expr,
    size: Option<Size>,
    items: Vec<FlatItem>,
    default: Box<FlatStmt>,
) -> Result<FlatStmt, NoMemory>
    requires { HasMeaning meaning (λ (m : PlainMeaning). IsSizedRead m (source.expression_of value.now)) }
    ensures { IfOk result (λ flat. (plain : PlainMeaning) → IsMeaning plain meaning.entry →
        statement_of flat ≡ Case (source_place place) kind (over_objects plain.holders (tree_at (reading_of plain.scope (source.expression_of value.now)) (option_map size_of size)))
        (items_of items.items) (statement_of default.value)) }
{
    let value = expr_at(alloc, meaning, value, size)?;
    Ok(FlatStmt::Case {
        place,
        kind,
        value,
        items,
        default,
    })
}

/// A `for` of its body.
pub fn for_over(
    alloc: Global,
    meaning: Meaning<'_, '_>,
    place: Place,
    head: ForHead<'_>,
    body: Box<FlatStmt>,
) -> Result<FlatStmt, NoMemory>
    requires { HasMeaning meaning (λ (m : PlainMeaning). IsSizedWrite m (source.target_of head.first_target.now) (source.expression_of head.first.now) ×
        IsSizedRead m (source.expression_of head.condition.now) × IsSizedWrite m (source.target_of head.next_target.now) (source.expression_of head.next.now)) }
    ensures { IfOk result (λ flat. (plain : PlainMeaning) → IsMeaning plain meaning.entry → statement_of flat ≡
        For (source_place place) (targets_over plain (source.target_of head.entry.first_target.now))
        (assigned_expression plain (source.target_of head.entry.first_target.now) (source.expression_of head.entry.first.now))
        (alone_expression plain (source.expression_of head.entry.condition.now)) (targets_over plain (source.target_of head.entry.next_target.now))
        (assigned_expression plain (source.target_of head.entry.next_target.now) (source.expression_of head.entry.next.now)) (statement_of body.value)) }
{
    let first = assigned_over(alloc, meaning, head.first_target, head.first);
    let condition = expr_alone(alloc, meaning, head.condition);
    let next = assigned_over(alloc, meaning, head.next_target, head.next);
    let (first, (condition, next)) = both(first, both(condition, next))?;
    Ok(FlatStmt::For {
        place,
        first_targets: first.targets,
        first: first.value,
        condition,
        next_targets: next.targets,
        next: next.value,
        body,
    })
}

/// A `while` of its body.
pub fn while_over(
    alloc: Global,
    meaning: Meaning<'_, '_>,
    place: Place,
    condition: &Expr,
    body: Box<FlatStmt>,
) -> Result<FlatStmt, NoMemory>
    requires { HasMeaning meaning (λ (m : PlainMeaning). IsSizedRead m (source.expression_of condition.now)) }
    ensures { IfOk result (λ flat. (plain : PlainMeaning) → IsMeaning plain meaning.entry →
        statement_of flat ≡ While (source_place place) (alone_expression plain (source.expression_of condition.now)) (statement_of body.value)) }
{
    let condition = expr_alone(alloc, meaning, condition)?;
    Ok(FlatStmt::While {
        place,
        condition,
        body,
    })
}

/// A `repeat` of its body.
pub fn repeat_over(
    alloc: Global,
    meaning: Meaning<'_, '_>,
    place: Place,
    count: &Expr,
    body: Box<FlatStmt>,
) -> Result<FlatStmt, NoMemory>
    requires { HasMeaning meaning (λ (m : PlainMeaning). IsSizedRead m (source.expression_of count.now)) }
    ensures { IfOk result (λ flat. (plain : PlainMeaning) → IsMeaning plain meaning.entry →
        statement_of flat ≡ Repeat (source_place place) (alone_expression plain (source.expression_of count.now)) (statement_of body.value)) }
{
    let count = expr_alone(alloc, meaning, count)?;
    Ok(FlatStmt::Repeat { place, count, body })
}

/// A `wait` of its body.
pub fn wait_over(
    alloc: Global,
    meaning: Meaning<'_, '_>,
    place: Place,
    condition: &Expr,
    body: Box<FlatStmt>,
) -> Result<FlatStmt, NoMemory>
    requires { HasMeaning meaning (λ (m : PlainMeaning). IsNarrow m.scope (source.expression_of condition.now)) }
    ensures { IfOk result (λ flat. (plain : PlainMeaning) → IsMeaning plain meaning.entry →
        statement_of flat ≡ Wait (source_place place) (alone_expression plain (source.expression_of condition.now)) (statement_of body.value)) }
{
    let condition = expr_alone(alloc, meaning, condition)?;
    Ok(FlatStmt::Wait {
        place,
        condition,
        body,
    })
}

/// An event control of its body, whose text says what `@*` waits for.
pub fn event_over(
    alloc: Global,
    meaning: Meaning<'_, '_>,
    place: Place,
    waits: &Waits,
    text: &Stmt,
    body: Box<FlatStmt>,
) -> Result<FlatStmt, NoMemory>
    requires { HasMeaning meaning (λ (m : PlainMeaning). AreNarrowWaits m.scope (source.waits_of waits.now) × IsSizedText m (source.statement_of text.now)) }
    ensures { IfOk result (λ flat. (plain : PlainMeaning) → IsMeaning plain meaning.entry →
        statement_of flat ≡ EventControl (source_place place) (wait_entries plain (source.waits_of waits.now) (source.statement_of text.now)) (statement_of body.value)) }
{
    let entries = wait_entries(alloc, meaning, waits, text)?;
    Ok(FlatStmt::EventControl {
        place,
        entries: Seq::from_vec(entries),
        body,
    })
}

/// A delay of its body.
pub fn delayed_over(
    alloc: Global,
    meaning: Meaning<'_, '_>,
    place: Place,
    delay: &Expr,
    body: Box<FlatStmt>,
) -> Result<FlatStmt, NoMemory>
    requires { HasMeaning meaning (λ (m : PlainMeaning). IsDelay (delay_number m (source.expression_of delay.now))) }
    ensures { IfOk result (λ flat. (plain : PlainMeaning) → IsMeaning plain meaning.entry →
        statement_of flat ≡ Delay (source_place place) (delay_number plain (source.expression_of delay.now)) (statement_of body.value)) }
{
    let delay = delay_over(alloc, meaning, delay)?;
    Ok(FlatStmt::Delay { place, delay, body })
}

/// A blocking assignment.
pub fn blocking_over(
    alloc: Global,
    meaning: Meaning<'_, '_>,
    place: Place,
    target: &Target,
    delay: &Option<Expr>,
    value: &Expr,
) -> Result<FlatStmt, NoMemory>
    requires { HasMeaning meaning (λ (m : PlainMeaning). IsDelayIf (option_map (delay_number m) (source.expression_in delay.now)) × IsSizedWrite m (source.target_of target.now) (source.expression_of value.now)) }
    ensures { IfOk result (λ flat. (plain : PlainMeaning) → IsMeaning plain meaning.entry → statement_of flat ≡
        Blocking (source_place place) (targets_over plain (source.target_of target.now)) (option_map (delay_number plain) (source.expression_in delay.now))
        (assigned_expression plain (source.target_of target.now) (source.expression_of value.now))) }
{
    let delay = delay_if(alloc, meaning, delay)?;
    let assigned = assigned_over(alloc, meaning, target, value)?;
    Ok(FlatStmt::Blocking {
        place,
        targets: assigned.targets,
        delay,
        value: assigned.value,
    })
}

/// A nonblocking assignment.
pub fn nonblocking_over(
    alloc: Global,
    meaning: Meaning<'_, '_>,
    place: Place,
    target: &Target,
    delay: &Option<Expr>,
    value: &Expr,
) -> Result<FlatStmt, NoMemory>
    requires { HasMeaning meaning (λ (m : PlainMeaning). IsDelay (delay_or_zero m (source.expression_in delay.now)) × IsSizedWrite m (source.target_of target.now) (source.expression_of value.now)) }
    ensures { IfOk result (λ flat. (plain : PlainMeaning) → IsMeaning plain meaning.entry → statement_of flat ≡
        Nonblocking (source_place place) (targets_over plain (source.target_of target.now)) (delay_or_zero plain (source.expression_in delay.now))
        (assigned_expression plain (source.target_of target.now) (source.expression_of value.now))) }
{
    let delay = delay_or_zero(alloc, meaning, delay)?;
    let assigned = assigned_over(alloc, meaning, target, value)?;
    Ok(FlatStmt::Nonblocking {
        place,
        targets: assigned.targets,
        delay,
        value: assigned.value,
    })
}
