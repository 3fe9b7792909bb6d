// Reading whole statements.

ghost use Rattle.std.specs.Prelude.{◌≡◌, ◌+◌, ◌≤◌, ◌<◌, List, [], ◌∷◌, ◌++◌, map, length, IfOk};
ghost use Rattle.vf_base.specs.Base.{source_place};
ghost use Rattle.v_tree.specs.Views.{expression_of, statement_of};
ghost use Rattle.v_tree.specs.CaseParts.{case_part_of};
ghost use Rattle.v_readers.specs.Given.{Gives};
ghost use Rattle.v_readers.specs.Reading.{by_class};
ghost use Rattle.v_stmt.specs.Spelling.{is_unfinished};
ghost use Rattle.v_stmt.specs.LoopKinds.{looping_of};
ghost use Rattle.v_stmt.specs.Statements as read;
ghost use Rattle.v_stmt.specs.Statements.{below_of};

use crate::build::{block_of, case_of, for_of, if_else_of, if_of, looping};
use crate::parts::{colon, condition, for_head, label, waits};
use crate::pieces::{Held, LoopKind, Piece, begins, boxed, has_default, labels, simple};
use four_value::CaseKind;
use std::alloc::Global;
use v_expr::{closed, inner_delay};
use v_readers::{Class, Lexeme, Stop, down, is_next, next_class, ready, step};
use v_tree::{CaseItem, Expr, Stmt};
use vf_base::Place;

/// A statement one level down.
#[cycle(statement)]
#[tactic(auto, using(crate::proofs::Below::below_of_is))]
fn below<'t>(
    alloc: Global,
    tokens: &'t [Lexeme<'t>],
    levels: u32,
) -> Result<(Piece, &'t [Lexeme<'t>]), Stop<'t>>
    requires few { levels < 256 }
    requires some { 0 < levels }
    ensures reads { Gives (λ x. (statement_of x.0.stmt, x.1.now)) result (below_of levels tokens.now) }
    ensures unfinished { IfOk result (λ x. x.0.unfinished ≡ is_unfinished (statement_of x.0.stmt)) }
    ensures shorter { IfOk result (λ x. length x.1.now < length tokens.now) }
{
    piece(alloc, tokens, levels - 1)
}

/// A statement one level down, as another one holds it.
#[cycle(statement)]
fn inner<'t>(
    alloc: Global,
    tokens: &'t [Lexeme<'t>],
    levels: u32,
) -> Result<(Held, &'t [Lexeme<'t>]), Stop<'t>>
    requires few { levels < 256 }
    requires some { 0 < levels }
    ensures reads { Gives (λ x. (statement_of x.0.stmt.value, x.1.now)) result (below_of levels tokens.now) }
    ensures unfinished { IfOk result (λ x. x.0.unfinished ≡ is_unfinished (statement_of x.0.stmt.value)) }
    ensures shorter { IfOk result (λ x. length x.1.now < length tokens.now) }
{
    let (piece, rest) = below(alloc, tokens, levels)?;
    let held = boxed(alloc, piece)?;
    Ok((held, rest))
}

/// The label of a block, if it has one, and its statements.
#[cycle(statement)]
#[tactic(auto, unfolding(crate::specs::Statements::block_body))]
fn block_body<'t>(
    alloc: Global,
    tokens: &'t [Lexeme<'t>],
    levels: u32,
) -> Result<(Vec<Stmt>, &'t [Lexeme<'t>]), Stop<'t>>
    requires { levels < 256 }
    ensures reads { Gives (λ x. (map statement_of x.0.items, x.1.now)) result (read.block_body levels (below_of levels) tokens.now) }
    ensures shorter { IfOk result (λ x. length x.1.now ≤ length tokens.now) }
{
    let mut rest = label(alloc, tokens)?;
    let mut statements = Vec::new(alloc);
    'body: while begins(rest) {
        ready(rest, 0, levels)?;
        let (next, after) = below(alloc, rest, levels)?;
        statements.push(next.stmt)?;
        rest = after;
    }
    Ok((statements, rest))
}

/// A block.
#[cycle(statement)]
#[tactic(auto, unfolding(crate::specs::Statements::block))]
fn block<'t>(
    alloc: Global,
    tokens: &'t [Lexeme<'t>],
    levels: u32,
) -> Result<(Piece, &'t [Lexeme<'t>]), Stop<'t>>
    requires { levels < 256 }
    ensures reads { Gives (λ x. (statement_of x.0.stmt, x.1.now)) result (read.block levels (below_of levels) tokens.now) }
    ensures unfinished { IfOk result (λ x. x.0.unfinished ≡ is_unfinished (statement_of x.0.stmt)) }
    ensures shorter { IfOk result (λ x. length x.1.now < length tokens.now) }
{
    let (place, rest) = step(tokens)?;
    let (statements, rest) = block_body(alloc, rest, levels)?;
    let stmt = block_of(place, statements);
    let (stmt, _, rest) = closed(stmt, rest, Class::End)?;
    Ok((
        Piece {
            stmt,
            unfinished: false,
        },
        rest,
    ))
}

/// An `if` behind its first branch: an `else` belongs to it unless it belongs to an `if` in that branch.
#[cycle(statement)]
fn branches<'t>(
    alloc: Global,
    tokens: &'t [Lexeme<'t>],
    place: Place,
    test: Expr,
    first: Held,
    levels: u32,
) -> Result<(Piece, &'t [Lexeme<'t>]), Stop<'t>>
    requires few { levels < 256 }
    requires some { 0 < levels }
    requires unfinished { first.unfinished ≡ is_unfinished (statement_of first.stmt.value) }
    ensures reads { Gives (λ x. (statement_of x.0.stmt, x.1.now)) result (by_class (read.else_by (below_of levels) (source_place place) (expression_of test)
        (statement_of first.stmt.value)) tokens.now) }
    ensures unfinished { IfOk result (λ x. x.0.unfinished ≡ is_unfinished (statement_of x.0.stmt)) }
    ensures shorter { IfOk result (λ x. length x.1.now ≤ length tokens.now) }
{
    if is_next(tokens, Class::Else) && !first.unfinished {
        let (_, rest) = step(tokens)?;
        let (second, rest) = inner(alloc, rest, levels)?;
        let stmt = if_else_of(place, test, first.stmt, second.stmt);
        return Ok((
            Piece {
                stmt,
                unfinished: second.unfinished,
            },
            rest,
        ));
    }
    let stmt = if_of(place, test, first.stmt);
    Ok((
        Piece {
            stmt,
            unfinished: true,
        },
        tokens,
    ))
}

/// An `if`, with its `else` if it has one.
#[cycle(statement)]
#[tactic(auto, unfolding(crate::specs::Statements::conditional))]
fn conditional<'t>(
    alloc: Global,
    tokens: &'t [Lexeme<'t>],
    levels: u32,
) -> Result<(Piece, &'t [Lexeme<'t>]), Stop<'t>>
    requires { levels < 256 }
    ensures reads { Gives (λ x. (statement_of x.0.stmt, x.1.now)) result (read.conditional levels (below_of levels) tokens.now) }
    ensures unfinished { IfOk result (λ x. x.0.unfinished ≡ is_unfinished (statement_of x.0.stmt)) }
    ensures shorter { IfOk result (λ x. length x.1.now < length tokens.now) }
{
    let (place, rest) = down(tokens, 0, levels)?;
    let (test, rest) = condition(alloc, rest, levels)?;
    let (first, rest) = inner(alloc, rest, levels)?;
    branches(alloc, rest, place, test, first, levels)
}

/// A `while`, a `repeat` or a `wait`.
#[cycle(statement)]
#[tactic(auto, unfolding(crate::specs::Statements::looped))]
fn looped<'t>(
    alloc: Global,
    tokens: &'t [Lexeme<'t>],
    kind: LoopKind,
    levels: u32,
) -> Result<(Piece, &'t [Lexeme<'t>]), Stop<'t>>
    requires { levels < 256 }
    ensures reads { Gives (λ x. (statement_of x.0.stmt, x.1.now)) result (read.looped levels (below_of levels) (looping_of kind) tokens.now) }
    ensures unfinished { IfOk result (λ x. x.0.unfinished ≡ is_unfinished (statement_of x.0.stmt)) }
    ensures shorter { IfOk result (λ x. length x.1.now < length tokens.now) }
{
    let (place, rest) = down(tokens, 0, levels)?;
    let (test, rest) = condition(alloc, rest, levels)?;
    let (body, rest) = inner(alloc, rest, levels)?;
    let stmt = looping(kind, place, test, body.stmt);
    Ok((
        Piece {
            stmt,
            unfinished: body.unfinished,
        },
        rest,
    ))
}

/// A `forever`.
#[cycle(statement)]
#[tactic(auto, unfolding(crate::specs::Statements::forever))]
fn forever<'t>(
    alloc: Global,
    tokens: &'t [Lexeme<'t>],
    levels: u32,
) -> Result<(Piece, &'t [Lexeme<'t>]), Stop<'t>>
    requires { levels < 256 }
    ensures reads { Gives (λ x. (statement_of x.0.stmt, x.1.now)) result (read.forever levels (below_of levels) tokens.now) }
    ensures unfinished { IfOk result (λ x. x.0.unfinished ≡ is_unfinished (statement_of x.0.stmt)) }
    ensures shorter { IfOk result (λ x. length x.1.now < length tokens.now) }
{
    let (place, rest) = down(tokens, 0, levels)?;
    let (body, rest) = inner(alloc, rest, levels)?;
    let stmt = Stmt::Forever {
        place,
        body: body.stmt,
    };
    Ok((
        Piece {
            stmt,
            unfinished: body.unfinished,
        },
        rest,
    ))
}

/// A `for`.
#[cycle(statement)]
#[tactic(auto, using(crate::proofs::Groups::for_loop_is))]
fn for_loop<'t>(
    alloc: Global,
    tokens: &'t [Lexeme<'t>],
    levels: u32,
) -> Result<(Piece, &'t [Lexeme<'t>]), Stop<'t>>
    requires { levels < 256 }
    ensures reads { Gives (λ x. (statement_of x.0.stmt, x.1.now)) result (read.for_loop levels (below_of levels) tokens.now) }
    ensures unfinished { IfOk result (λ x. x.0.unfinished ≡ is_unfinished (statement_of x.0.stmt)) }
    ensures shorter { IfOk result (λ x. length x.1.now < length tokens.now) }
{
    let (place, rest) = down(tokens, 0, levels)?;
    let (head, rest) = for_head(alloc, rest, levels)?;
    let (body, rest) = inner(alloc, rest, levels)?;
    let stmt = for_of(place, head, body.stmt);
    Ok((
        Piece {
            stmt,
            unfinished: body.unfinished,
        },
        rest,
    ))
}

/// An event control before a statement.
#[cycle(statement)]
#[tactic(auto, unfolding(crate::specs::Statements::event))]
fn event<'t>(
    alloc: Global,
    tokens: &'t [Lexeme<'t>],
    levels: u32,
) -> Result<(Piece, &'t [Lexeme<'t>]), Stop<'t>>
    requires { levels < 256 }
    ensures reads { Gives (λ x. (statement_of x.0.stmt, x.1.now)) result (read.event levels (below_of levels) tokens.now) }
    ensures unfinished { IfOk result (λ x. x.0.unfinished ≡ is_unfinished (statement_of x.0.stmt)) }
    ensures shorter { IfOk result (λ x. length x.1.now < length tokens.now) }
{
    let (place, rest) = down(tokens, 0, levels)?;
    let (waits, rest) = waits(alloc, rest, levels)?;
    let (body, rest) = inner(alloc, rest, levels)?;
    let stmt = Stmt::Event {
        place,
        waits,
        body: body.stmt,
    };
    Ok((
        Piece {
            stmt,
            unfinished: body.unfinished,
        },
        rest,
    ))
}

/// A delay before a statement.
#[cycle(statement)]
#[tactic(auto, unfolding(crate::specs::Statements::delayed))]
fn delayed<'t>(
    alloc: Global,
    tokens: &'t [Lexeme<'t>],
    levels: u32,
) -> Result<(Piece, &'t [Lexeme<'t>]), Stop<'t>>
    requires { levels < 256 }
    ensures reads { Gives (λ x. (statement_of x.0.stmt, x.1.now)) result (read.delayed levels (below_of levels) tokens.now) }
    ensures unfinished { IfOk result (λ x. x.0.unfinished ≡ is_unfinished (statement_of x.0.stmt)) }
    ensures shorter { IfOk result (λ x. length x.1.now < length tokens.now) }
{
    let (place, rest) = down(tokens, 0, levels)?;
    let (delay, rest) = inner_delay(alloc, rest, levels)?;
    let (body, rest) = inner(alloc, rest, levels)?;
    let stmt = Stmt::Delay {
        place,
        delay,
        body: body.stmt,
    };
    Ok((
        Piece {
            stmt,
            unfinished: body.unfinished,
        },
        rest,
    ))
}

/// One more item of a case, behind these.
#[cycle(statement)]
#[tactic(auto, unfolding(crate::specs::Statements::item, crate::specs::Statements::default_item, crate::specs::Statements::labelled_item))]
fn item<'t>(
    alloc: Global,
    tokens: &'t [Lexeme<'t>],
    items: &mut Vec<CaseItem>,
    levels: u32,
) -> Result<&'t [Lexeme<'t>], Stop<'t>>
    requires few { levels < 256 }
    requires some { 0 < levels }
    ensures reads { Gives (λ rest. (map case_part_of items.new.items, rest.now)) result (read.item levels (below_of levels) (map case_part_of items.old.items) tokens.now) }
    ensures shorter { IfOk result (λ rest. length rest.now < length tokens.now) }
{
    match next_class(tokens) {
        Some(Class::Default) => {
            if has_default(items) {
                return Err(Stop::Wrong(tokens));
            }
            let (_, rest) = step(tokens)?;
            let rest = colon(rest)?;
            let (body, rest) = below(alloc, rest, levels)?;
            items.push(CaseItem::Default {
                statement: body.stmt,
            })?;
            Ok(rest)
        }
        _ => {
            let (labels, rest) = labels(alloc, tokens, levels)?;
            let (labels, _, rest) = closed(labels, rest, Class::Colon)?;
            let (body, rest) = below(alloc, rest, levels)?;
            items.push(CaseItem::Labelled {
                labels,
                statement: body.stmt,
            })?;
            Ok(rest)
        }
    }
}

/// The items of a case, one at least.
#[cycle(statement)]
#[tactic(auto, unfolding(crate::specs::Statements::items))]
fn items<'t>(
    alloc: Global,
    tokens: &'t [Lexeme<'t>],
    levels: u32,
) -> Result<(Vec<CaseItem>, &'t [Lexeme<'t>]), Stop<'t>>
    requires few { levels < 256 }
    requires some { 0 < levels }
    ensures reads { Gives (λ x. (map case_part_of x.0.items, x.1.now)) result (read.items levels (below_of levels) tokens.now) }
    ensures shorter { IfOk result (λ x. length x.1.now < length tokens.now) }
{
    let mut items = Vec::new(alloc);
    let mut rest = item(alloc, tokens, &mut items, levels)?;
    'items: while !is_next(rest, Class::EndCase) {
        rest = item(alloc, rest, &mut items, levels)?;
    }
    Ok((items, rest))
}

/// A case.
#[cycle(statement)]
#[tactic(auto, unfolding(crate::specs::Statements::case))]
fn case<'t>(
    alloc: Global,
    tokens: &'t [Lexeme<'t>],
    kind: CaseKind,
    levels: u32,
) -> Result<(Piece, &'t [Lexeme<'t>]), Stop<'t>>
    requires { levels < 256 }
    ensures reads { Gives (λ x. (statement_of x.0.stmt, x.1.now)) result (read.case levels (below_of levels) kind tokens.now) }
    ensures unfinished { IfOk result (λ x. x.0.unfinished ≡ is_unfinished (statement_of x.0.stmt)) }
    ensures shorter { IfOk result (λ x. length x.1.now < length tokens.now) }
{
    let (place, rest) = down(tokens, 0, levels)?;
    let (value, rest) = condition(alloc, rest, levels)?;
    let (items, rest) = items(alloc, rest, levels)?;
    let stmt = case_of(place, kind, value, items);
    let (stmt, _, rest) = closed(stmt, rest, Class::EndCase)?;
    Ok((
        Piece {
            stmt,
            unfinished: false,
        },
        rest,
    ))
}

/// A statement, and whether an `else` behind it would be its own.
#[cycle(statement)]
#[tactic(auto, unfolding(crate::specs::Statements::statement))]
fn piece<'t>(
    alloc: Global,
    tokens: &'t [Lexeme<'t>],
    levels: u32,
) -> Result<(Piece, &'t [Lexeme<'t>]), Stop<'t>>
    requires { levels < 256 }
    ensures reads { Gives (λ x. (statement_of x.0.stmt, x.1.now)) result (read.statement levels tokens.now) }
    ensures unfinished { IfOk result (λ x. x.0.unfinished ≡ is_unfinished (statement_of x.0.stmt)) }
    ensures shorter { IfOk result (λ x. length x.1.now < length tokens.now) }
{
    match next_class(tokens) {
        Some(Class::Begin) => block(alloc, tokens, levels),
        Some(Class::If) => conditional(alloc, tokens, levels),
        Some(Class::Case) => case(alloc, tokens, CaseKind::Exact, levels),
        Some(Class::CaseZ) => case(alloc, tokens, CaseKind::IgnoreZ, levels),
        Some(Class::CaseX) => case(alloc, tokens, CaseKind::IgnoreXz, levels),
        Some(Class::For) => for_loop(alloc, tokens, levels),
        Some(Class::While) => looped(alloc, tokens, LoopKind::While, levels),
        Some(Class::Repeat) => looped(alloc, tokens, LoopKind::Repeat, levels),
        Some(Class::Forever) => forever(alloc, tokens, levels),
        Some(Class::Wait) => looped(alloc, tokens, LoopKind::Wait, levels),
        Some(Class::At) => event(alloc, tokens, levels),
        Some(Class::Hash) => delayed(alloc, tokens, levels),
        _ => simple(alloc, tokens, levels),
    }
}

/// A statement with at most so many levels below it.
pub fn statement<'t>(
    alloc: Global,
    tokens: &'t [Lexeme<'t>],
    levels: u32,
) -> Result<(Stmt, &'t [Lexeme<'t>]), Stop<'t>>
    requires { levels < 256 }
    ensures reads { Gives (λ x. (statement_of x.0, x.1.now)) result (read.statement levels tokens.now) }
    ensures shorter { IfOk result (λ x. length x.1.now < length tokens.now) }
{
    let (piece, rest) = piece(alloc, tokens, levels)?;
    Ok((piece.stmt, rest))
}
