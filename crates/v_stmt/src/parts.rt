// Reading the parts of statements.

ghost use Rattle.std.specs.Prelude.{◌≡◌, ◌+◌, ◌^◌, ◌≤◌, ◌<◌, List, [], ◌∷◌, map, length, false, IfOk};
ghost use Rattle.vf_base.specs.Base.{source_place};
ghost use Rattle.v_tree.specs.Trees.{place_of_target};
ghost use Rattle.v_tree.specs.Views.{expression_of, expression_in, target_of, entry_of, waits_of, statement_of};
ghost use Rattle.v_readers.specs.Given.{Gives};
ghost use Rattle.v_readers.specs.Reading.{by_class, next_class};
ghost use Rattle.v_stmt.specs.Statements as read;
ghost use Rattle.v_stmt.specs.Groups as group;
ghost use Rattle.v_stmt.specs.Spelling.{name_entry, is_unfinished};

use four_value::Edge;
use std::alloc::Global;
use v_expr::{
    PartReader, closed, inner_delay, inner_expression, inner_select, inner_target, with_next,
};
use v_readers::{Class, Lexeme, Stop, expect, name, next_class, ready, step};
use v_tree::{Entry, Expr, Index, Select, Stmt, Target, Waits};
use vf_base::{NoMemory, Place, Seq, Text};

/// A label behind a colon, if there is one.
#[tactic(auto, unfolding(crate::specs::Statements::label))]
pub fn label<'t>(alloc: Global, tokens: &'t [Lexeme<'t>]) -> Result<&'t [Lexeme<'t>], Stop<'t>>
    ensures reads { Gives (λ rest. (tt, rest.now)) result (read.label tokens.now) }
    ensures shorter { IfOk result (λ rest. length rest.now ≤ length tokens.now) }
{
    match next_class(tokens) {
        Some(Class::Colon) => {
            let (_, rest) = step(tokens)?;
            let (_, rest) = name(alloc, rest)?;
            Ok(rest)
        }
        _ => Ok(tokens),
    }
}

/// A colon, if there is one.
#[tactic(auto, unfolding(crate::specs::Statements::colon))]
pub fn colon<'t>(tokens: &'t [Lexeme<'t>]) -> Result<&'t [Lexeme<'t>], Stop<'t>>
    ensures reads { Gives (λ rest. (tt, rest.now)) result (read.colon tokens.now) }
    ensures shorter { IfOk result (λ rest. length rest.now ≤ length tokens.now) }
{
    match next_class(tokens) {
        Some(Class::Colon) => {
            let (_, rest) = step(tokens)?;
            Ok(rest)
        }
        _ => Ok(tokens),
    }
}

/// A select behind the edge of an entry.
fn edged<'t>(
    alloc: Global,
    tokens: &'t [Lexeme<'t>],
    edge: Edge,
    levels: u32,
) -> Result<(Entry, &'t [Lexeme<'t>]), Stop<'t>>
    requires few { levels < 256 }
    requires some { 0 < levels }
    ensures reads { Gives (λ x. (entry_of x.0, x.1.now)) result (read.edged levels edge tokens.now) }
    ensures shorter { IfOk result (λ x. length x.1.now < length tokens.now) }
{
    let (select, rest) = inner_select(alloc, tokens, levels)?;
    Ok((Entry { edge, select }, rest))
}

/// An entry of an event control.
#[tactic(auto, unfolding(crate::specs::Statements::entry))]
fn entry<'t>(
    alloc: Global,
    tokens: &'t [Lexeme<'t>],
    levels: u32,
) -> Result<(Entry, &'t [Lexeme<'t>]), Stop<'t>>
    requires few { levels < 256 }
    requires some { 0 < levels }
    ensures reads { Gives (λ x. (entry_of x.0, x.1.now)) result (read.entry levels tokens.now) }
    ensures shorter { IfOk result (λ x. length x.1.now < length tokens.now) }
{
    match next_class(tokens) {
        Some(Class::PosEdge) => {
            let (_, rest) = step(tokens)?;
            edged(alloc, rest, Edge::Pos, levels)
        }
        Some(Class::NegEdge) => {
            let (_, rest) = step(tokens)?;
            edged(alloc, rest, Edge::Neg, levels)
        }
        _ => edged(alloc, tokens, Edge::Any, levels),
    }
}

/// Whether the next token stands between two entries.
fn separates(tokens: &[Lexeme]) -> bool
    ensures { result ≡ read.separates (next_class tokens.now) }
{
    match next_class(tokens) {
        Some(Class::OrWord) => true,
        Some(Class::Comma) => true,
        _ => false,
    }
}

/// Entries, with `or` or a comma between them.
#[tactic(auto, unfolding(crate::specs::Statements::entry_row))]
fn entry_row<'t>(
    alloc: Global,
    tokens: &'t [Lexeme<'t>],
    levels: u32,
) -> Result<(Seq<Entry>, &'t [Lexeme<'t>]), Stop<'t>>
    requires few { levels < 256 }
    requires some { 0 < levels }
    ensures reads { Gives (λ x. (map entry_of x.0, x.1.now)) result (read.entry_row levels tokens.now) }
    ensures shorter { IfOk result (λ x. length x.1.now < length tokens.now) }
{
    let (first, mut rest) = entry(alloc, tokens, levels)?;
    let mut entries = Vec::new(alloc);
    entries.push(first)?;
    'entries: while separates(rest) {
        let (_, after) = step(rest)?;
        let (next, after) = entry(alloc, after, levels)?;
        entries.push(next)?;
        rest = after;
    }
    Ok((Seq::from_vec(entries), rest))
}

/// The entries of an event control, and their end.
#[tactic(auto, unfolding(crate::specs::Statements::entries))]
fn closed_entries<'t>(
    alloc: Global,
    tokens: &'t [Lexeme<'t>],
    levels: u32,
) -> Result<(Waits, &'t [Lexeme<'t>]), Stop<'t>>
    requires few { levels < 256 }
    requires some { 0 < levels }
    ensures reads { Gives (λ x. (waits_of x.0, x.1.now)) result (read.entries levels tokens.now) }
    ensures shorter { IfOk result (λ x. length x.1.now < length tokens.now) }
{
    let (entries, rest) = entry_row(alloc, tokens, levels)?;
    let (entries, _, rest) = closed(entries, rest, Class::RightParen)?;
    Ok((Waits::Entries(entries), rest))
}

/// What stands in the parentheses of an event control, and their end.
fn inside<'t>(
    alloc: Global,
    tokens: &'t [Lexeme<'t>],
    levels: u32,
) -> Result<(Waits, &'t [Lexeme<'t>]), Stop<'t>>
    requires few { levels < 256 }
    requires some { 0 < levels }
    ensures reads { Gives (λ x. (waits_of x.0, x.1.now)) result (by_class (read.inside_by levels) tokens.now) }
    ensures shorter { IfOk result (λ x. length x.1.now < length tokens.now) }
{
    match next_class(tokens) {
        Some(Class::Star) => {
            let (_, rest) = step(tokens)?;
            let (_, rest) = expect(rest, Class::RightParen)?;
            Ok((Waits::AnyRead, rest))
        }
        _ => closed_entries(alloc, tokens, levels),
    }
}

/// What stands behind the `@` of an event control.
#[tactic(auto, unfolding(crate::specs::Statements::waits))]
pub fn waits<'t>(
    alloc: Global,
    tokens: &'t [Lexeme<'t>],
    levels: u32,
) -> Result<(Waits, &'t [Lexeme<'t>]), Stop<'t>>
    requires few { levels < 256 }
    requires some { 0 < levels }
    ensures reads { Gives (λ x. (waits_of x.0, x.1.now)) result (read.waits levels tokens.now) }
    ensures shorter { IfOk result (λ x. length x.1.now < length tokens.now) }
{
    match next_class(tokens) {
        Some(Class::Star) => {
            let (_, rest) = step(tokens)?;
            Ok((Waits::AnyRead, rest))
        }
        Some(Class::Name) => {
            let ((name, place), rest) = name(alloc, tokens)?;
            let entries = one_name(alloc, name, place)?;
            Ok((Waits::Entries(entries), rest))
        }
        Some(Class::LeftParen) => {
            let (_, rest) = step(tokens)?;
            inside(alloc, rest, levels)
        }
        _ => Err(Stop::Wrong(tokens)),
    }
}

/// An entry for any change of a name.
fn one_name(alloc: Global, name: Text, place: Place) -> Result<Seq<Entry>, NoMemory>
    ensures { IfOk result (λ entries. map entry_of entries ≡ name_entry name (source_place place) ∷ []) }
{
    let mut entries = Vec::new(alloc);
    entries.push(Entry {
        edge: Edge::Any,
        select: Select {
            place,
            name,
            index: Index::Whole,
        },
    })?;
    Ok(Seq::from_vec(entries))
}

/// The delay inside an assignment, if there is one.
#[tactic(auto, unfolding(crate::specs::Statements::assigned_delay))]
fn assigned_delay<'t>(
    alloc: Global,
    tokens: &'t [Lexeme<'t>],
    levels: u32,
) -> Result<(Option<Expr>, &'t [Lexeme<'t>]), Stop<'t>>
    requires few { levels < 256 }
    requires some { 0 < levels }
    ensures reads { Gives (λ x. (expression_in x.0, x.1.now)) result (read.assigned_delay levels tokens.now) }
    ensures shorter { IfOk result (λ x. length x.1.now ≤ length tokens.now) }
{
    match next_class(tokens) {
        Some(Class::Hash) => {
            let (_, rest) = step(tokens)?;
            let (delay, rest) = inner_delay(alloc, rest, levels)?;
            Ok((Some(delay), rest))
        }
        _ => Ok((None, tokens)),
    }
}

/// An expression, and a token of this class.
#[tactic(auto, unfolding(crate::specs::Groups::ended))]
fn ended<'t>(
    alloc: Global,
    tokens: &'t [Lexeme<'t>],
    class: Class,
    levels: u32,
) -> Result<(Expr, &'t [Lexeme<'t>]), Stop<'t>>
    requires few { levels < 256 }
    requires some { 0 < levels }
    ensures reads { Gives (λ x. (expression_of x.0, x.1.now)) result (group.ended class levels tokens.now) }
    ensures shorter { IfOk result (λ x. length x.1.now < length tokens.now) }
{
    let (expr, rest) = inner_expression(alloc, tokens, levels)?;
    let (expr, _, rest) = closed(expr, rest, class)?;
    Ok((expr, rest))
}

/// Reads expressions one level down.
#[derive(Drop)]
pub struct InnerExpressionReader {
    pub levels: u32,
}

impl PartReader for InnerExpressionReader {
    ghost use Rattle.std.specs.Prelude.{◌<◌};
    ghost use Rattle.v_tree.specs.Trees.{SourceExpression};
    ghost use Rattle.v_tree.specs.Views.{expression_of};
    ghost use Rattle.v_expr.specs.Parts.{inner_expression};

    type Part = Expr;

    ghost Tree = { SourceExpression };

    ghost tree_of = { expression_of };

    ghost reader = { λ it. inner_expression it.levels };

    ghost can_read = { λ it. (0 < it.levels) × (it.levels < 256) };

    fn read<'t>(
        &self,
        alloc: Global,
        tokens: &'t [Lexeme<'t>],
    ) -> Result<(Expr, &'t [Lexeme<'t>]), Stop<'t>> {
        inner_expression(alloc, tokens, self.levels)
    }
}

/// Reads an expression one level down, and a token of this class.
#[derive(Drop)]
struct EndedExpressionReader {
    class: Class,
    levels: u32,
}

impl PartReader for EndedExpressionReader {
    ghost use Rattle.std.specs.Prelude.{◌<◌};
    ghost use Rattle.v_tree.specs.Trees.{SourceExpression};
    ghost use Rattle.v_tree.specs.Views.{expression_of};
    ghost use Rattle.v_stmt.specs.Groups.{ended};

    type Part = Expr;

    ghost Tree = { SourceExpression };

    ghost tree_of = { expression_of };

    ghost reader = { λ it. ended it.class it.levels };

    ghost can_read = { λ it. (0 < it.levels) × (it.levels < 256) };

    fn read<'t>(
        &self,
        alloc: Global,
        tokens: &'t [Lexeme<'t>],
    ) -> Result<(Expr, &'t [Lexeme<'t>]), Stop<'t>> {
        ended(alloc, tokens, self.class, self.levels)
    }
}

/// An expression in the parentheses of a statement.
#[tactic(auto, unfolding(crate::specs::Statements::condition, crate::specs::Groups::ended))]
pub fn condition<'t>(
    alloc: Global,
    tokens: &'t [Lexeme<'t>],
    levels: u32,
) -> Result<(Expr, &'t [Lexeme<'t>]), Stop<'t>>
    requires few { levels < 256 }
    requires some { 0 < levels }
    ensures reads { Gives (λ x. (expression_of x.0, x.1.now)) result (read.condition levels tokens.now) }
    ensures shorter { IfOk result (λ x. length x.1.now < length tokens.now) }
{
    let (_, rest) = expect(tokens, Class::LeftParen)?;
    ended(alloc, rest, Class::RightParen, levels)
}

/// An assignment in the head of a `for`.
#[derive(Drop)]
pub struct Head {
    pub target: Target,
    pub value: Expr,
}

/// The sign and the value of an assignment in the head of a `for`.
#[tactic(auto, unfolding(crate::specs::Groups::valued))]
fn valued<'t>(
    alloc: Global,
    tokens: &'t [Lexeme<'t>],
    levels: u32,
) -> Result<(Expr, &'t [Lexeme<'t>]), Stop<'t>>
    requires few { levels < 256 }
    requires some { 0 < levels }
    ensures reads { Gives (λ x. (expression_of x.0, x.1.now)) result (group.valued levels tokens.now) }
    ensures shorter { IfOk result (λ x. length x.1.now < length tokens.now) }
{
    let (_, rest) = expect(tokens, Class::Assign)?;
    inner_expression(alloc, rest, levels)
}

/// Reads the sign and the value of an assignment in the head of a `for`.
#[derive(Drop)]
struct SignedValueReader {
    levels: u32,
}

impl PartReader for SignedValueReader {
    ghost use Rattle.std.specs.Prelude.{◌<◌};
    ghost use Rattle.v_tree.specs.Trees.{SourceExpression};
    ghost use Rattle.v_tree.specs.Views.{expression_of};
    ghost use Rattle.v_stmt.specs.Groups.{valued};

    type Part = Expr;

    ghost Tree = { SourceExpression };

    ghost tree_of = { expression_of };

    ghost reader = { λ it. valued it.levels };

    ghost can_read = { λ it. (0 < it.levels) × (it.levels < 256) };

    fn read<'t>(
        &self,
        alloc: Global,
        tokens: &'t [Lexeme<'t>],
    ) -> Result<(Expr, &'t [Lexeme<'t>]), Stop<'t>> {
        valued(alloc, tokens, self.levels)
    }
}

/// What is assigned in the head of a `for`.
#[tactic(auto, using(crate::proofs::Groups::head_assignment_is))]
fn head_assignment<'t>(
    alloc: Global,
    tokens: &'t [Lexeme<'t>],
    levels: u32,
) -> Result<(Head, &'t [Lexeme<'t>]), Stop<'t>>
    requires few { levels < 256 }
    requires some { 0 < levels }
    ensures reads { Gives (λ x. ((target_of x.0.target, expression_of x.0.value), x.1.now)) result (read.head_assignment levels tokens.now) }
    ensures shorter { IfOk result (λ x. length x.1.now < length tokens.now) }
{
    let (target, rest) = inner_target(alloc, tokens, levels)?;
    let (target, value, rest) = with_next(target, alloc, rest, &SignedValueReader { levels })?;
    Ok((Head { target, value }, rest))
}

/// An assignment in the head of a `for`, and a token of this class.
#[tactic(auto, unfolding(crate::specs::Groups::head_ended))]
fn head_ended<'t>(
    alloc: Global,
    tokens: &'t [Lexeme<'t>],
    class: Class,
    levels: u32,
) -> Result<(Head, &'t [Lexeme<'t>]), Stop<'t>>
    requires few { levels < 256 }
    requires some { 0 < levels }
    ensures reads { Gives (λ x. ((target_of x.0.target, expression_of x.0.value), x.1.now)) result (group.head_ended class levels tokens.now) }
    ensures shorter { IfOk result (λ x. length x.1.now < length tokens.now) }
{
    let (head, rest) = head_assignment(alloc, tokens, levels)?;
    let (head, _, rest) = closed(head, rest, class)?;
    Ok((head, rest))
}

/// Reads an assignment in the head of a `for`, and a token of this class.
#[derive(Drop)]
struct EndedHeadReader {
    class: Class,
    levels: u32,
}

impl PartReader for EndedHeadReader {
    ghost use Rattle.std.specs.Prelude.{◌<◌};
    ghost use Rattle.v_tree.specs.Trees.{SourceTarget, SourceExpression};
    ghost use Rattle.v_tree.specs.Views.{target_of, expression_of};
    ghost use Rattle.v_stmt.specs.Groups.{head_ended};

    type Part = Head;

    ghost Tree = { SourceTarget × SourceExpression };

    ghost tree_of = { λ head. (target_of head.target, expression_of head.value) };

    ghost reader = { λ it. head_ended it.class it.levels };

    ghost can_read = { λ it. (0 < it.levels) × (it.levels < 256) };

    fn read<'t>(
        &self,
        alloc: Global,
        tokens: &'t [Lexeme<'t>],
    ) -> Result<(Head, &'t [Lexeme<'t>]), Stop<'t>> {
        head_ended(alloc, tokens, self.class, self.levels)
    }
}

/// The condition and the second assignment in the head of a `for`.
#[derive(Drop)]
pub struct ForSteps {
    pub condition: Expr,
    pub next: Head,
}

/// The condition and the second assignment in the head of a `for`, and its end.
#[tactic(auto, unfolding(crate::specs::Groups::for_steps))]
fn for_steps<'t>(
    alloc: Global,
    tokens: &'t [Lexeme<'t>],
    levels: u32,
) -> Result<(ForSteps, &'t [Lexeme<'t>]), Stop<'t>>
    requires few { levels < 256 }
    requires some { 0 < levels }
    ensures reads { Gives (λ x. ((expression_of x.0.condition, (target_of x.0.next.target, expression_of x.0.next.value)), x.1.now)) result (group.for_steps levels tokens.now) }
    ensures shorter { IfOk result (λ x. length x.1.now < length tokens.now) }
{
    let (condition, rest) = ended(alloc, tokens, Class::Semicolon, levels)?;
    let next = EndedHeadReader {
        class: Class::RightParen,
        levels,
    };
    let (condition, next, rest) = with_next(condition, alloc, rest, &next)?;
    Ok((ForSteps { condition, next }, rest))
}

/// Reads the condition and the second assignment in the head of a `for`, and its end.
#[derive(Drop)]
struct ForStepsReader {
    levels: u32,
}

impl PartReader for ForStepsReader {
    ghost use Rattle.std.specs.Prelude.{◌<◌};
    ghost use Rattle.v_tree.specs.Trees.{SourceTarget, SourceExpression};
    ghost use Rattle.v_tree.specs.Views.{target_of, expression_of};
    ghost use Rattle.v_stmt.specs.Groups.{for_steps};

    type Part = ForSteps;

    ghost Tree = { SourceExpression × (SourceTarget × SourceExpression) };

    ghost tree_of = { λ steps. (expression_of steps.condition, (target_of steps.next.target, expression_of steps.next.value)) };

    ghost reader = { λ it. for_steps it.levels };

    ghost can_read = { λ it. (0 < it.levels) × (it.levels < 256) };

    fn read<'t>(
        &self,
        alloc: Global,
        tokens: &'t [Lexeme<'t>],
    ) -> Result<(ForSteps, &'t [Lexeme<'t>]), Stop<'t>> {
        for_steps(alloc, tokens, self.levels)
    }
}

/// The head of a `for`.
#[derive(Drop)]
pub struct ForHead {
    pub first: Head,
    pub steps: ForSteps,
}

/// The head of a `for`, in its parentheses.
#[tactic(auto, unfolding(crate::specs::Groups::for_head))]
pub fn for_head<'t>(
    alloc: Global,
    tokens: &'t [Lexeme<'t>],
    levels: u32,
) -> Result<(ForHead, &'t [Lexeme<'t>]), Stop<'t>>
    requires few { levels < 256 }
    requires some { 0 < levels }
    ensures reads { Gives (λ x. (group.for_head_of x.0, x.1.now)) result (group.for_head levels tokens.now) }
    ensures shorter { IfOk result (λ x. length x.1.now < length tokens.now) }
{
    let (_, rest) = expect(tokens, Class::LeftParen)?;
    let (first, rest) = head_ended(alloc, rest, Class::Semicolon, levels)?;
    let (first, steps, rest) = with_next(first, alloc, rest, &ForStepsReader { levels })?;
    Ok((ForHead { first, steps }, rest))
}

/// How many parentheses are open behind a token of this class, or none where it closes the outermost one.
fn depth_behind(depth: usize, class: Class) -> Option<usize>
    requires { depth + 1 < 2 ^ 64 }
    ensures { result ≡ read.depth_behind depth class }
{
    if Class::LeftParen.is(class) {
        Some(depth + 1)
    } else if Class::RightParen.is(class) {
        depth.checked_sub(1)
    } else {
        Some(depth)
    }
}

/// An opening parenthesis, and any tokens up to the one that closes it.
fn parenthesised<'t>(tokens: &'t [Lexeme<'t>]) -> Result<&'t [Lexeme<'t>], Stop<'t>>
    ensures reads { Gives (λ rest. (tt, rest.now)) result (read.parenthesised tokens.now) }
    ensures shorter { IfOk result (λ rest. length rest.now ≤ length tokens.now) }
{
    let (_, mut rest) = step(tokens)?;
    let mut depth: Option<usize> = Some(0);
    'tokens: while let Some(open) = depth {
        let Some(class) = next_class(rest) else {
            return Err(Stop::Wrong(rest));
        };
        let (_, after) = step(rest)?;
        depth = depth_behind(open, class);
        rest = after;
    }
    Ok(rest)
}

/// What stands behind the name of a system task.
#[tactic(auto, unfolding(crate::specs::Statements::arguments))]
fn arguments<'t>(tokens: &'t [Lexeme<'t>]) -> Result<&'t [Lexeme<'t>], Stop<'t>>
    ensures reads { Gives (λ rest. (tt, rest.now)) result (read.arguments tokens.now) }
    ensures shorter { IfOk result (λ rest. length rest.now ≤ length tokens.now) }
{
    match next_class(tokens) {
        Some(Class::LeftParen) => parenthesised(tokens),
        _ => Ok(tokens),
    }
}

/// The place of a system task whose name is of this class.
#[tactic(auto, unfolding(crate::specs::Statements::task))]
pub fn task<'t>(
    tokens: &'t [Lexeme<'t>],
    class: Class,
) -> Result<(Place, &'t [Lexeme<'t>]), Stop<'t>>
    ensures reads { Gives (λ x. (source_place x.0, x.1.now)) result (read.task class tokens.now) }
    ensures shorter { IfOk result (λ x. length x.1.now < length tokens.now) }
{
    let (place, rest) = expect(tokens, class)?;
    let rest = arguments(rest)?;
    let (_, rest) = expect(rest, Class::Semicolon)?;
    Ok((place, rest))
}

/// Whether an assignment is blocking.
#[derive(Clone, Copy)]
pub enum AssignmentKind {
    Blocking,
    Nonblocking,
}

/// The sign of an assignment.
#[tactic(auto, unfolding(crate::specs::Groups::sign))]
fn sign<'t>(tokens: &'t [Lexeme<'t>]) -> Result<(AssignmentKind, &'t [Lexeme<'t>]), Stop<'t>>
    ensures reads { Gives (λ x. (x.0, x.1.now)) result (group.sign tokens.now) }
    ensures shorter { IfOk result (λ x. length x.1.now < length tokens.now) }
{
    match next_class(tokens) {
        Some(Class::Assign) => {
            let (_, rest) = step(tokens)?;
            Ok((AssignmentKind::Blocking, rest))
        }
        Some(Class::LessEqual) => {
            let (_, rest) = step(tokens)?;
            Ok((AssignmentKind::Nonblocking, rest))
        }
        _ => Err(Stop::Wrong(tokens)),
    }
}

/// The delay and the value of an assignment.
#[derive(Drop)]
struct RightSide {
    delay: Option<Expr>,
    value: Expr,
}

/// What stands behind the sign of an assignment.
#[tactic(auto, using(crate::proofs::Groups::assigned_is))]
fn assigned<'t>(
    alloc: Global,
    tokens: &'t [Lexeme<'t>],
    levels: u32,
) -> Result<(RightSide, &'t [Lexeme<'t>]), Stop<'t>>
    requires few { levels < 256 }
    requires some { 0 < levels }
    ensures reads { Gives (λ x. ((expression_in x.0.delay, expression_of x.0.value), x.1.now)) result (read.assigned levels tokens.now) }
    ensures shorter { IfOk result (λ x. length x.1.now ≤ length tokens.now) }
{
    let (delay, rest) = assigned_delay(alloc, tokens, levels)?;
    let value = EndedExpressionReader {
        class: Class::Semicolon,
        levels,
    };
    let (delay, value, rest) = with_next(delay, alloc, rest, &value)?;
    Ok((RightSide { delay, value }, rest))
}

/// The kind of an assignment, and what is assigned.
#[derive(Drop)]
struct SignedSide {
    kind: AssignmentKind,
    side: RightSide,
}

/// The sign of an assignment, and what stands behind it.
#[tactic(auto, unfolding(crate::specs::Groups::signed_side))]
fn signed_side<'t>(
    alloc: Global,
    tokens: &'t [Lexeme<'t>],
    levels: u32,
) -> Result<(SignedSide, &'t [Lexeme<'t>]), Stop<'t>>
    requires few { levels < 256 }
    requires some { 0 < levels }
    ensures reads { Gives (λ x. ((x.0.kind, (expression_in x.0.side.delay, expression_of x.0.side.value)), x.1.now)) result (group.signed_side levels tokens.now) }
    ensures shorter { IfOk result (λ x. length x.1.now < length tokens.now) }
{
    let (kind, rest) = sign(tokens)?;
    let (side, rest) = assigned(alloc, rest, levels)?;
    Ok((SignedSide { kind, side }, rest))
}

/// Reads the sign of an assignment, and what stands behind it.
#[derive(Drop)]
struct SignedSideReader {
    levels: u32,
}

impl PartReader for SignedSideReader {
    ghost use Rattle.std.specs.Prelude.{Option, ◌<◌};
    ghost use Rattle.v_tree.specs.Trees.{SourceExpression};
    ghost use Rattle.v_tree.specs.Views.{expression_in, expression_of};
    ghost use Rattle.v_stmt.specs.declared.parts.AssignmentKind.{AssignmentKind};
    ghost use Rattle.v_stmt.specs.Groups.{signed_side};

    type Part = SignedSide;

    ghost Tree = { AssignmentKind × (Option SourceExpression × SourceExpression) };

    ghost tree_of = { λ x. (x.kind, (expression_in x.side.delay, expression_of x.side.value)) };

    ghost reader = { λ it. signed_side it.levels };

    ghost can_read = { λ it. (0 < it.levels) × (it.levels < 256) };

    fn read<'t>(
        &self,
        alloc: Global,
        tokens: &'t [Lexeme<'t>],
    ) -> Result<(SignedSide, &'t [Lexeme<'t>]), Stop<'t>> {
        signed_side(alloc, tokens, self.levels)
    }
}

/// The place of a target.
fn place_of(target: &Target) -> Place
    ensures { source_place result ≡ place_of_target (target_of target.now) }
{
    match target {
        Target::One(select) => select.place,
        Target::Joined(place, _) => *place,
    }
}

/// An assignment of this kind.
fn assignment_of(kind: AssignmentKind, target: Target, side: RightSide) -> Stmt
    ensures made { statement_of result ≡ group.assignment_of kind (target_of target) (expression_in side.delay) (expression_of side.value) }
    ensures finished { is_unfinished (statement_of result) ≡ false }
{
    let place = place_of(&target);
    let RightSide { delay, value } = side;
    match kind {
        AssignmentKind::Blocking => Stmt::Blocking {
            place,
            target,
            delay,
            value,
        },
        AssignmentKind::Nonblocking => Stmt::Nonblocking {
            place,
            target,
            delay,
            value,
        },
    }
}

/// An assignment, blocking or nonblocking.
#[tactic(auto, using(crate::proofs::Groups::assignment_is))]
pub fn assignment<'t>(
    alloc: Global,
    tokens: &'t [Lexeme<'t>],
    levels: u32,
) -> Result<(Stmt, &'t [Lexeme<'t>]), Stop<'t>>
    requires { levels < 256 }
    ensures reads { Gives (λ x. (statement_of x.0, x.1.now)) result (read.assignment levels tokens.now) }
    ensures finished { IfOk result (λ x. is_unfinished (statement_of x.0) ≡ false) }
    ensures shorter { IfOk result (λ x. length x.1.now < length tokens.now) }
{
    ready(tokens, 0, levels)?;
    let (target, rest) = inner_target(alloc, tokens, levels)?;
    let (target, signed, rest) = with_next(target, alloc, rest, &SignedSideReader { levels })?;
    let SignedSide { kind, side } = signed;
    Ok((assignment_of(kind, target, side), rest))
}
