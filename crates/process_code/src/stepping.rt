// One step of a process, by the form of what is first in its rest.

ghost use Rattle.std.specs.Prelude.{◌≡◌, ◌≤◌, ◌<◌, ◌+◌, ◌^◌, true, false, [], ◌∷◌, ◌++◌, length, map, List, Option, None, Some, OnOk, IfErr, vec_capacity};
ghost use Rattle.four_value.specs.Values.{LogicValue, is_true};
ghost use Rattle.v_design.specs.Plain.{expression_of, statement_of, target_of};
ghost use Rattle.v_design.specs.PlainLemmas.{items_of};
ghost use Rattle.v_design.specs.Trees.{Statement, Wait};
ghost use Rattle.v_design.specs.Reads.{named_in, named_in_targets, named_by, named_by_items};
ghost use Rattle.v_design.specs.Sized.{IsSized, IsSizedStatement, IsSizedAssignment, AreSizedItems};
ghost use Rattle.v_design.specs.Assignments.{value_at, read_assignment};
ghost use Rattle.v_design.specs.Processes.{read_case};
ghost use Rattle.v_design.specs.Expressions.{Needs, Has, read_expression, sign_of, width_of};
ghost use Rattle.vf_base.specs.Base.{object_number, source_place};
ghost use Rattle.process_operands.specs.Bounds.{reads_most, reads_most_items};
ghost use Rattle.process_operands.specs.BoundsLaws.{AreBelow};
ghost use Rattle.process_code.specs.Positions.{part_of_head, loop_part, advance_part, turns_part};
ghost use Rattle.process_code.specs.Points.{point_of, said_by, SaysRead, ReadsBelow, TakesUpdate};
ghost use Rattle.vf_base.specs.Counts.{raised};
ghost use Rattle.process_code.specs.Codes.{IsCodeOf};
ghost use Rattle.process_code.specs.Acts.{GoesTo, IsDone, Acts, Branches, Chooses, Counts, WaitsUnless, Assigns, filled, position_by, ActsBy, ActsPart};
ghost use Rattle.process_code.specs.StatesOf.{IsStateOf, HasRoom, StepsAsDefined, KeepsRoom, HasRoomFor, FitsIn, IsGoodPart, CountsPart, CountsRepeat, most_of_assignment, most_operands, most_updates};

use crate::code::{Code, Head, Spot, Ways};
use crate::state::{Did, ProcState, Stage};
use expr_eval::is_signed;
use four_value::{CaseKind, Truth, Vec4};
use process_operands::{read_choice, read_updates, read_value};
use std::sync::ledger::Ledger;
use v_design::{CaseItem, FlatExpr, FlatStmt, FlatTarget, Values};
use vf_base::{ObjectId, Place, Steps};

/// Whether a value is true as a condition.
fn holds(value: Vec4) -> bool
    ensures { result ≡ is_true value }
{
    match value.truth() {
        Truth::True => true,
        Truth::False => false,
        Truth::Unknown => false,
    }
}

/// The position of the item that is chosen, else that of the default.
fn way_of(ways: &Ways, choice: Option<usize>) -> usize
    ensures { result ≡ position_by ways.now.items.items ways.now.other choice }
{
    match choice {
        None => ways.other,
        Some(number) => {
            if number < ways.items.len() {
                ways.items[number]
            } else {
                ways.other
            }
        }
    }
}

impl ProcState {
    /// The value of an object becomes the next operand.
    fn read<V: Values>(&mut self, object: ObjectId, values: &V) -> Did
        requires there { object_number object < length (V.values values.now) }
        requires space { length self.old.operands.items < vec_capacity self.old.operands }
        ensures point { point_of self.new ≡ record (point_of self.old) { operands = self.old.operands.items ++ (value_at (V.values values.now) (object_number object) ∷ []) } }
        ensures says { said_by result ≡ SaysRead (object_number object) }
        ensures room { KeepsRoom self.old self.new }
    {
        let value = values.value(object);
        match self.operands.push(value) {
            Ok(()) => Did::Read(object),
            Err(_) => unreachable!(),
        }
    }

    /// By a condition to the one position or the other.
    fn branch<V: Values>(
        &mut self,
        condition: &FlatExpr,
        inner: usize,
        other: usize,
        values: &V,
    ) -> Did
        requires sized { IsSized (expression_of condition.now) }
        requires there { AreBelow (length (V.values values.now)) (named_in (expression_of condition.now)) }
        requires space { reads_most (expression_of condition.now) ≤ vec_capacity self.old.operands }
        ensures acts { Acts (V.values values.now) (read_expression (expression_of condition.now) self.old.operands.items) (Branches
            (point_of self.old) inner other) (point_of self.old) (point_of self.new) (said_by result) }
        ensures room { KeepsRoom self.old self.new }
    {
        let mut used = 0;
        match read_value(condition, &self.operands, &mut used) {
            Err(object) => self.read(object, values),
            Ok(value) => {
                let position = if holds(value) { inner } else { other };
                self.go(position)
            }
        }
    }

    /// To the item of a case that is chosen, or to its default.
    fn choose<V: Values>(
        &mut self,
        kind: CaseKind,
        value: &FlatExpr,
        items: &[CaseItem],
        ways: &Ways,
        values: &V,
    ) -> Did
        requires value { IsSized (expression_of value.now) }
        requires labels { AreSizedItems (width_of (expression_of value.now)) (sign_of (expression_of value.now)) (items_of items.now) }
        requires there { AreBelow (length (V.values values.now)) (named_in (expression_of value.now)) × AreBelow (length (V.values values.now)) (named_by_items (items_of items.now)) }
        requires space { reads_most (expression_of value.now) + reads_most_items (items_of items.now) ≤ vec_capacity self.old.operands }
        ensures acts { (default : Statement) →
            Acts (V.values values.now) (read_case kind (expression_of value.now) (items_of items.now) default self.old.operands.items) (Chooses
            (items_of items.now) default ways.now.items.items ways.now.other (point_of self.old)) (point_of self.old) (point_of self.new) (said_by result) }
        ensures room { KeepsRoom self.old self.new }
    {
        let mut used = 0;
        match read_choice(kind, value, items, &self.operands, &mut used) {
            Err(object) => self.read(object, values),
            Ok(choice) => self.go(way_of(ways, choice)),
        }
    }

    /// The count of a repeat is fixed.
    fn count<V: Values>(&mut self, count: &FlatExpr, number: usize, inner: usize, values: &V) -> Did
        requires sized { IsSized (expression_of count.now) }
        requires there { AreBelow (length (V.values values.now)) (named_in (expression_of count.now)) }
        requires space { reads_most (expression_of count.now) ≤ vec_capacity self.old.operands }
        requires number { number < length self.old.counts.items }
        ensures acts { Acts (V.values values.now) (read_expression (expression_of count.now) self.old.operands.items) (Counts (point_of self.old) number inner
            (sign_of (expression_of count.now))) (point_of self.old) (point_of self.new) (said_by result) }
        ensures room { KeepsRoom self.old self.new }
    {
        let mut used = 0;
        match read_value(count, &self.operands, &mut used) {
            Err(object) => self.read(object, values),
            Ok(value) => {
                self.counts[number] = match value.as_natural(is_signed(count)) {
                    None => 0,
                    Some(turns) => turns,
                };
                self.go(inner)
            }
        }
    }

    /// Where its condition is true a wait goes on, else it begins and then tests again.
    fn wait_until<V: Values>(&mut self, condition: &FlatExpr, inner: usize, values: &V) -> Did
        requires sized { IsSized (expression_of condition.now) }
        requires there { AreBelow (length (V.values values.now)) (named_in (expression_of condition.now)) }
        requires space { reads_most (expression_of condition.now) ≤ vec_capacity self.old.operands }
        ensures acts { Acts (V.values values.now) (read_expression (expression_of condition.now) self.old.operands.items)
            (λ value. WaitsUnless (point_of self.old) inner (is_true value)) (point_of self.old) (point_of self.new) (said_by result) }
        ensures room { KeepsRoom self.old self.new }
    {
        let mut used = 0;
        match read_value(condition, &self.operands, &mut used) {
            Err(object) => self.read(object, values),
            Ok(value) => {
                if holds(value) {
                    self.go(inner)
                } else {
                    let at = self.position;
                    self.begin_wait(at, at)
                }
            }
        }
    }

    /// The updates of an assignment are put into the state, which then stands at a position.
    fn fill(
        &mut self,
        place: Place,
        targets: &[FlatTarget],
        value: &FlatExpr,
        delay: Option<u32>,
        next: usize,
    ) -> Result<(), ObjectId>
        requires sized { IsSizedAssignment (map target_of targets.now) (expression_of value.now) }
        requires empty { self.old.updates.items ≡ [] }
        requires space { length targets.now ≤ vec_capacity self.old.updates }
        ensures has { OnOk result ((left : List LogicValue) × (read_assignment place.line (map target_of targets.now)
            (expression_of value.now) self.old.operands.items ≡ Has (point_of self.new).updates left)) }
        ensures point { OnOk result (point_of self.new ≡ filled (point_of self.old) (source_place place) delay next (point_of self.new).updates) }
        ensures needs { IfErr result (λ object. (read_assignment place.line (map target_of targets.now)
            (expression_of value.now) self.old.operands.items ≡ Needs (object_number object)) × (point_of self.new ≡ point_of self.old) ×
            (vec_capacity self.new.operands ≡ vec_capacity self.old.operands)) }
        ensures room { KeepsRoom self.old self.new }
    {
        let mut used = 0;
        match read_updates(
            place.line,
            targets,
            value,
            &self.operands,
            &mut used,
            &mut self.updates,
        ) {
            Err(object) => Err(object),
            Ok(()) => {
                self.operands.clear();
                self.place = place;
                self.delay = delay;
                self.position = next;
                Ok(())
            }
        }
    }
}

impl ProcState {
    /// A blocking assignment: its updates are written at once, or after the delay inside it.
    fn assign<V: Values>(
        &mut self,
        place: Place,
        targets: &[FlatTarget],
        delay: Option<u32>,
        value: &FlatExpr,
        next: usize,
        values: &V,
        now: u64,
    ) -> Did
        requires sized { IsSizedAssignment (map target_of targets.now) (expression_of value.now) }
        requires there { AreBelow (length (V.values values.now)) (named_in (expression_of value.now)) × AreBelow (length (V.values values.now)) (named_in_targets (map target_of targets.now)) }
        requires space { (most_of_assignment (map target_of targets.now) (expression_of value.now) ≤ vec_capacity self.old.operands) × (length targets.now ≤ vec_capacity self.old.updates) }
        requires empty { self.old.updates.items ≡ [] }
        requires now { now ≤ 2 ^ 63 }
        ensures acts { Acts (V.values values.now) (read_assignment place.line (map target_of targets.now) (expression_of value.now) self.old.operands.items)
            (Assigns now (point_of self.old) (source_place place) delay next) (point_of self.old) (point_of self.new) (said_by result) }
        ensures room { KeepsRoom self.old self.new }
    {
        match self.fill(place, targets, value, None, next) {
            Err(object) => self.read(object, values),
            Ok(()) => match delay {
                None => self.next_update(now),
                Some(delay) => self.delay(now, delay, next),
            },
        }
    }

    /// A nonblocking assignment: the first of its updates is appended.
    fn append<V: Values>(
        &mut self,
        place: Place,
        targets: &[FlatTarget],
        delay: u32,
        value: &FlatExpr,
        next: usize,
        values: &V,
        now: u64,
    ) -> Did
        requires sized { IsSizedAssignment (map target_of targets.now) (expression_of value.now) }
        requires there { AreBelow (length (V.values values.now)) (named_in (expression_of value.now)) × AreBelow (length (V.values values.now)) (named_in_targets (map target_of targets.now)) }
        requires space { (most_of_assignment (map target_of targets.now) (expression_of value.now) ≤ vec_capacity self.old.operands) × (length targets.now ≤ vec_capacity self.old.updates) }
        requires empty { self.old.updates.items ≡ [] }
        requires now { now ≤ 2 ^ 63 }
        ensures acts { Acts (V.values values.now) (read_assignment place.line (map target_of targets.now) (expression_of value.now) self.old.operands.items)
            (λ updates. TakesUpdate now (filled (point_of self.old) (source_place place) (Some delay) next updates)) (point_of self.old) (point_of self.new) (said_by result) }
        ensures room { KeepsRoom self.old self.new }
    {
        match self.fill(place, targets, value, Some(delay), next) {
            Err(object) => self.read(object, values),
            Ok(()) => self.next_update(now),
        }
    }
}

/// What a step of a statement does that stands first in the rest, where its ways lead, before the position of what comes after it.
fn step_statement<V: Values>(
    statement: &FlatStmt,
    ways: &Ways,
    next: usize,
    state: &mut ProcState,
    values: &V,
    now: u64,
) -> Did
    requires sized { IsSizedStatement (statement_of statement.now) }
    requires there { AreBelow (length (V.values values.now)) (named_by (statement_of statement.now)) }
    requires space { (most_operands (statement_of statement.now) ≤ vec_capacity state.old.operands) × (most_updates (statement_of statement.now) ≤ vec_capacity state.old.updates) }
    requires number { CountsRepeat (statement_of statement.now) ways.now.other state.old }
    requires empty { state.old.updates.items ≡ [] }
    requires now { now ≤ 2 ^ 63 }
    ensures acts { ActsBy now (V.values values.now) (statement_of statement.now) ways.now next (point_of state.old) (point_of state.new) (said_by result) }
    ensures room { KeepsRoom state.old state.new }
{
    match statement {
        FlatStmt::Null => Did::Inner,
        FlatStmt::Block { .. } => Did::Inner,
        FlatStmt::If { condition, .. } => state.branch(condition, ways.inner, ways.other, values),
        FlatStmt::Case {
            kind,
            value,
            items,
            ..
        } => state.choose(*kind, value, items, ways, values),
        FlatStmt::For {
            place,
            first_targets,
            first,
            ..
        } => state.assign(*place, first_targets, None, first, ways.inner, values, now),
        FlatStmt::While { condition, .. } => state.branch(condition, ways.inner, next, values),
        FlatStmt::Repeat { count, .. } => state.count(count, ways.other, ways.inner, values),
        FlatStmt::Forever { .. } => state.go(ways.inner),
        FlatStmt::Delay { delay, .. } => {
            state.delay = None;
            state.delay(now, *delay, ways.inner)
        }
        FlatStmt::EventControl { .. } => {
            let at = state.position;
            state.begin_wait(at, ways.inner)
        }
        FlatStmt::Wait { condition, .. } => state.wait_until(condition, ways.inner, values),
        FlatStmt::Blocking {
            place,
            targets,
            delay,
            value,
        } => state.assign(*place, targets, *delay, value, next, values, now),
        FlatStmt::Nonblocking {
            place,
            targets,
            delay,
            value,
        } => state.append(*place, targets, *delay, value, next, values, now),
        FlatStmt::Finish { .. } => state.finish(),
    }
}

/// The test of a `for`.
fn step_test<V: Values>(
    statement: &FlatStmt,
    ways: &Ways,
    next: usize,
    state: &mut ProcState,
    values: &V,
    now: u64,
) -> Did
    requires good { IsGoodPart (length (V.values values.now)) (loop_part (statement_of statement.now)) }
    requires space { FitsIn state.old (loop_part (statement_of statement.now)) }
    requires number { CountsPart (loop_part (statement_of statement.now)) ways.now.other state.old }
    requires empty { state.old.updates.items ≡ [] }
    requires now { now ≤ 2 ^ 63 }
    ensures acts { ActsPart now (V.values values.now) (loop_part (statement_of statement.now)) ways.now next (point_of state.old) (point_of state.new) (said_by result) }
    ensures room { KeepsRoom state.old state.new }
{
    match statement {
        FlatStmt::For { condition, .. } => state.branch(condition, ways.inner, next, values),
        _ => step_statement(statement, ways, next, state, values, now),
    }
}

/// The assignment of a `for` that ends a turn.
fn step_advance<V: Values>(
    statement: &FlatStmt,
    ways: &Ways,
    next: usize,
    state: &mut ProcState,
    values: &V,
    now: u64,
) -> Did
    requires good { IsGoodPart (length (V.values values.now)) (advance_part (statement_of statement.now)) }
    requires space { FitsIn state.old (advance_part (statement_of statement.now)) }
    requires number { CountsPart (advance_part (statement_of statement.now)) ways.now.other state.old }
    requires empty { state.old.updates.items ≡ [] }
    requires now { now ≤ 2 ^ 63 }
    ensures acts { ActsPart now (V.values values.now) (advance_part (statement_of statement.now)) ways.now next (point_of state.old) (point_of state.new) (said_by result) }
    ensures room { KeepsRoom state.old state.new }
{
    match statement {
        FlatStmt::For {
            place,
            next_targets,
            next: value,
            ..
        } => state.assign(*place, next_targets, None, value, next, values, now),
        _ => step_statement(statement, ways, next, state, values, now),
    }
}

/// The turns of a `repeat` with a number.
fn step_turns<V: Values>(
    statement: &FlatStmt,
    number: usize,
    ways: &Ways,
    next: usize,
    state: &mut ProcState,
    values: &V,
    now: u64,
) -> Did
    requires good { IsGoodPart (length (V.values values.now)) (turns_part number (statement_of statement.now)) }
    requires space { FitsIn state.old (turns_part number (statement_of statement.now)) }
    requires number { CountsPart (turns_part number (statement_of statement.now)) ways.now.other state.old }
    requires empty { state.old.updates.items ≡ [] }
    requires now { now ≤ 2 ^ 63 }
    ensures acts { ActsPart now (V.values values.now) (turns_part number (statement_of statement.now)) ways.now next (point_of state.old) (point_of state.new) (said_by result) }
    ensures room { KeepsRoom state.old state.new }
{
    match statement {
        FlatStmt::Repeat { .. } => state.turn(number, ways.inner, next),
        _ => step_statement(statement, ways, next, state, values, now),
    }
}

/// What a step of a spot does.
fn step_spot<V: Values>(
    spot: &Spot,
    ways: &Ways,
    state: &mut ProcState,
    values: &V,
    now: u64,
) -> Did
    requires good { IsGoodPart (length (V.values values.now)) (part_of_head spot.now.head) }
    requires space { FitsIn state.old (part_of_head spot.now.head) }
    requires number { CountsPart (part_of_head spot.now.head) ways.now.other state.old }
    requires empty { state.old.updates.items ≡ [] }
    requires now { now ≤ 2 ^ 63 }
    ensures acts { ActsPart now (V.values values.now) (part_of_head spot.now.head) ways.now spot.now.next (point_of state.old) (point_of state.new) (said_by result) }
    ensures room { KeepsRoom state.old state.new }
{
    match spot.head {
        Head::Statement(statement) => {
            step_statement(statement, ways, spot.next, state, values, now)
        }
        Head::Test(statement) => step_test(statement, ways, spot.next, state, values, now),
        Head::Advance(statement) => step_advance(statement, ways, spot.next, state, values, now),
        Head::Turns(statement, number) => {
            step_turns(statement, number, ways, spot.next, state, values, now)
        }
    }
}

impl ProcState {
    /// The end of the body: an `always` begins again, an `initial` is done.
    fn end_body(&mut self, always: bool, start: usize) -> Did
        ensures again { always ≡ true → GoesTo (point_of self.old) start (point_of self.new) (said_by result) }
        ensures done { always ≡ false → IsDone (point_of self.old) (point_of self.new) (said_by result) }
        ensures room { KeepsRoom self.old self.new }
    {
        if always {
            self.go(start)
        } else {
            self.finish()
        }
    }
}

/// One step of a ready process: the step of its definition, on the code. It reads or writes one object at most, and takes no memory.
pub fn step<V: Values, L: Ledger>(
    code: &Code,
    state: &mut ProcState,
    values: &V,
    now: u64,
    steps: &mut Steps<L>,
) -> Did
    requires code { IsCodeOf code.now.process.now code.now }
    requires state { IsStateOf code.now state.old }
    requires room { HasRoom code.now state.old }
    requires ready { state.old.stage ≡ Stage.Ready }
    requires there { AreBelow (length (V.values values.now)) (named_by (statement_of code.now.process.now.body)) }
    requires now { now ≤ 2 ^ 63 }
    ensures step { StepsAsDefined now (V.values values.now) code.now state.old state.new result }
    ensures reads { ReadsBelow (length (V.values values.now)) (said_by result) }
    ensures state { IsStateOf code.now state.new }
    ensures room { HasRoom code.now state.new }
    ensures ticks { steps.new ≡ raised steps.old }
{
    steps.tick();
    if !state.updates.is_empty() {
        return state.next_update(now);
    }
    if state.position == 0 {
        return state.end_body(code.process.always, code.start);
    }
    let spot = &code.spots[state.position - 1];
    let ways = &code.ways[state.position - 1];
    step_spot(spot, ways, state, values, now)
}
