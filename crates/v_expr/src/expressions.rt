// Reading expressions.

ghost use Rattle.std.specs.Prelude.{◌≡◌, ◌+◌, ◌≤◌, ◌<◌, Some, None, List, [], ◌∷◌, map, length, IfOk};
ghost use Rattle.vf_base.specs.Base.{source_place};
ghost use Rattle.v_tree.specs.Trees.{parts_of, Selected};
ghost use Rattle.v_tree.specs.Views.{expression_of, index_of};
ghost use Rattle.v_readers.specs.Given.{Gives};
ghost use Rattle.v_readers.specs.Reading.{by_class, repeat};
ghost use Rattle.v_readers.specs.Separated.{element_turn};
ghost use Rattle.v_readers.specs.declared.class.Class.TheVariants as classes;
ghost use Rattle.v_expr.specs.Heights.{height_of, heights_of, index_height};
ghost use Rattle.v_expr.specs.Expressions as read;
ghost use Rattle.v_expr.specs.Expressions.{inner_of};
ghost use Rattle.v_expr.specs.Bounds.{second_by, seen_in, IsMeasuredIn};

use crate::operators::{joining, operand_rank, place_of, rank_of, unary_of};
use crate::readers::closed;
use four_value::{BinaryOperator, UnaryOperator};
use std::alloc::Global;
use v_readers::{Class, Lexeme, Stop, down, expect, is_next, name, next_class, number, step};
use v_tree::{Expr, Index};
use vf_base::{NoMemory, Place, Text};

/// An expression with its height: how many levels stand below its outermost one.
#[derive(Drop)]
struct Part {
    expr: Expr,
    height: u32,
}

/// An expression as a node holds it, with its height.
#[derive(Drop)]
struct Held {
    expr: Box<Expr>,
    height: u32,
}

/// What stands in brackets behind a name, with what it adds to the name's height.
#[derive(Drop)]
pub struct Behind {
    pub index: Index,
    pub height: u32,
}

/// Parts in a row, with the greatest of their heights.
#[derive(Drop)]
struct Row {
    parts: Vec<Expr>,
    height: u32,
}

/// A part as a node holds it.
fn boxed(alloc: Global, part: Part) -> Result<Held, NoMemory>
    ensures made { IfOk result (λ held. expression_of held.expr.value ≡ expression_of part.expr) }
    ensures height { IfOk result (λ held. held.height ≡ part.height) }
{
    let Part { expr, height } = part;
    let expr = Box::new(alloc, expr)?;
    Ok(Held { expr, height })
}

/// A number.
pub fn literal<'t>(tokens: &'t [Lexeme<'t>]) -> Result<(Expr, &'t [Lexeme<'t>]), Stop<'t>>
    ensures reads { Gives (λ x. (expression_of x.0, x.1.now)) result (read.literal tokens.now) }
    ensures height { IfOk result (λ x. height_of (expression_of x.0) ≡ 0) }
    ensures shorter { IfOk result (λ x. length x.1.now < length tokens.now) }
{
    // a match, since `?` has no rule for a number beside what is left
    match number(tokens) {
        Ok(((value, form, place), rest)) => Ok((Expr::Number { place, form, value }, rest)),
        Err(stop) => Err(stop),
    }
}

/// A name with what stands in brackets behind it.
fn selected(alloc: Global, place: Place, name: Text, index: Index) -> Result<Expr, NoMemory>
    ensures { IfOk result (λ expr. expression_of expr ≡ Selected (source_place place) name (index_of index)) }
{
    match index {
        Index::Whole => Ok(Expr::Name { place, name }),
        Index::Bit(at) => Ok(Expr::BitSelect {
            place,
            name,
            index: Box::new(alloc, at)?,
        }),
        Index::Part(from, to) => Ok(Expr::PartSelect {
            place,
            name,
            from: Box::new(alloc, from)?,
            to: Box::new(alloc, to)?,
        }),
    }
}

/// A number, a select, a part in parentheses, a prefix with its operand, a concatenation or a replication.
#[cycle(expression)]
#[tactic(auto, unfolding(crate::specs::Expressions::primary))]
fn primary<'t>(
    alloc: Global,
    tokens: &'t [Lexeme<'t>],
    levels: u32,
) -> Result<(Part, &'t [Lexeme<'t>]), Stop<'t>>
    requires { levels < 256 }
    ensures reads { Gives (λ x. (expression_of x.0.expr, x.1.now)) result (read.primary levels (inner_of levels) tokens.now) }
    ensures height { IfOk result (λ x. (x.0.height ≡ height_of (expression_of x.0.expr)) × (x.0.height ≤ levels)) }
    ensures shorter { IfOk result (λ x. length x.1.now ≤ length tokens.now) }
{
    match next_class(tokens) {
        Some(Class::Number) => {
            let (expr, rest) = literal(tokens)?;
            Ok((Part { expr, height: 0 }, rest))
        }
        Some(Class::Name) => named(alloc, tokens, levels),
        Some(Class::LeftParen) => {
            let (place, rest) = down(tokens, 0, levels)?;
            let (held, rest) = inner(alloc, rest, 11, levels)?;
            let (_, rest) = expect(rest, Class::RightParen)?;
            Ok((
                Part {
                    expr: Expr::Paren {
                        place,
                        inner: held.expr,
                    },
                    height: held.height + 1,
                },
                rest,
            ))
        }
        Some(Class::LeftBrace) => {
            let (place, rest) = down(tokens, 0, levels)?;
            let (first, rest) = below(alloc, rest, 11, levels)?;
            braced(alloc, rest, first, place, levels)
        }
        Some(class) => prefixed(alloc, tokens, unary_of(class), levels),
        None => Err(Stop::Wrong(tokens)),
    }
}

/// A name with what stands in brackets behind it.
#[cycle(expression)]
fn named<'t>(
    alloc: Global,
    tokens: &'t [Lexeme<'t>],
    levels: u32,
) -> Result<(Part, &'t [Lexeme<'t>]), Stop<'t>>
    requires { levels < 256 }
    ensures reads { Gives (λ x. (expression_of x.0.expr, x.1.now)) result (read.named levels (inner_of levels) tokens.now) }
    ensures height { IfOk result (λ x. (x.0.height ≡ height_of (expression_of x.0.expr)) × (x.0.height ≤ levels)) }
    ensures shorter { IfOk result (λ x. length x.1.now ≤ length tokens.now) }
{
    let ((name, place), rest) = name(alloc, tokens)?;
    let (behind, rest) = index(alloc, rest, levels)?;
    let Behind { index, height } = behind;
    let expr = selected(alloc, place, name, index)?;
    Ok((Part { expr, height }, rest))
}

/// A prefix with its operand.
#[cycle(expression)]
fn prefixed<'t>(
    alloc: Global,
    tokens: &'t [Lexeme<'t>],
    operator: Option<UnaryOperator>,
    levels: u32,
) -> Result<(Part, &'t [Lexeme<'t>]), Stop<'t>>
    requires { levels < 256 }
    ensures reads { Gives (λ x. (expression_of x.0.expr, x.1.now)) result (read.prefixed_by levels (inner_of levels) operator tokens.now) }
    ensures height { IfOk result (λ x. (x.0.height ≡ height_of (expression_of x.0.expr)) × (x.0.height ≤ levels)) }
    ensures shorter { IfOk result (λ x. length x.1.now ≤ length tokens.now) }
{
    let Some(operator) = operator else {
        return Err(Stop::Wrong(tokens));
    };
    let (place, rest) = down(tokens, 0, levels)?;
    let (operand, rest) = inner(alloc, rest, 0, levels)?;
    Ok((
        Part {
            expr: Expr::Unary {
                place,
                operator,
                operand: operand.expr,
            },
            height: operand.height + 1,
        },
        rest,
    ))
}

/// What stands in brackets behind a name, if anything does.
#[cycle(expression)]
#[tactic(auto, unfolding(crate::specs::Expressions::index), using(crate::proofs::Bounds::bounds_is))]
pub fn index<'t>(
    alloc: Global,
    tokens: &'t [Lexeme<'t>],
    levels: u32,
) -> Result<(Behind, &'t [Lexeme<'t>]), Stop<'t>>
    requires { levels < 256 }
    ensures reads { Gives (λ x. (index_of x.0.index, x.1.now)) result (read.index levels (inner_of levels) tokens.now) }
    ensures height { IfOk result (λ x. (x.0.height ≡ index_height (index_of x.0.index)) × (x.0.height ≤ levels)) }
    ensures shorter { IfOk result (λ x. length x.1.now ≤ length tokens.now) }
{
    match next_class(tokens) {
        Some(Class::LeftBracket) => {
            let (_, rest) = down(tokens, 0, levels)?;
            let (from, rest) = below(alloc, rest, 11, levels)?;
            let (to, rest) = second_bound(alloc, rest, levels)?;
            match to {
                Some(to) => Ok((
                    Behind {
                        index: Index::Part(from.expr, to.expr),
                        height: from.height.max(to.height) + 1,
                    },
                    rest,
                )),
                None => Ok((
                    Behind {
                        index: Index::Bit(from.expr),
                        height: from.height + 1,
                    },
                    rest,
                )),
            }
        }
        _ => Ok((
            Behind {
                index: Index::Whole,
                height: 0,
            },
            tokens,
        )),
    }
}

/// The second bound of an index, if it has one, and the end of the index.
#[cycle(expression)]
fn second_bound<'t>(
    alloc: Global,
    tokens: &'t [Lexeme<'t>],
    levels: u32,
) -> Result<(Option<Part>, &'t [Lexeme<'t>]), Stop<'t>>
    requires few { levels < 256 }
    requires some { 0 < levels }
    ensures reads { Gives (λ x. (seen_in x.0, x.1.now)) result (by_class (second_by (inner_of levels)) tokens.now) }
    ensures height { IfOk result (λ x. IsMeasuredIn levels x.0) }
    ensures shorter { IfOk result (λ x. length x.1.now ≤ length tokens.now) }
{
    match next_class(tokens) {
        Some(Class::Colon) => {
            let (_, rest) = step(tokens)?;
            let (to, rest) = below(alloc, rest, 11, levels)?;
            let (to, _, rest) = closed(to, rest, Class::RightBracket)?;
            Ok((Some(to), rest))
        }
        _ => {
            let (_, rest) = expect(tokens, Class::RightBracket)?;
            Ok((None, rest))
        }
    }
}

/// A concatenation or a replication behind its first expression.
#[cycle(expression)]
#[tactic(auto, unfolding(crate::specs::Expressions::braced))]
fn braced<'t>(
    alloc: Global,
    tokens: &'t [Lexeme<'t>],
    first: Part,
    place: Place,
    levels: u32,
) -> Result<(Part, &'t [Lexeme<'t>]), Stop<'t>>
    requires few { levels < 256 }
    requires within { first.height < levels }
    requires height { first.height ≡ height_of (expression_of first.expr) }
    ensures reads { Gives (λ x. (expression_of x.0.expr, x.1.now)) result (read.braced (inner_of levels) (expression_of first.expr) (source_place place) tokens.now) }
    ensures height { IfOk result (λ x. (x.0.height ≡ height_of (expression_of x.0.expr)) × (x.0.height ≤ levels)) }
    ensures shorter { IfOk result (λ x. length x.1.now ≤ length tokens.now) }
{
    match next_class(tokens) {
        Some(Class::LeftBrace) => replication(alloc, tokens, first, place, levels),
        Some(_) => concatenation(alloc, tokens, first, place, levels),
        None => concatenation(alloc, tokens, first, place, levels),
    }
}

/// What is repeated, behind the count.
#[cycle(expression)]
#[tactic(auto, unfolding(crate::specs::Expressions::replication, v_readers::specs::Separated::separated))]
fn replication<'t>(
    alloc: Global,
    tokens: &'t [Lexeme<'t>],
    first: Part,
    place: Place,
    levels: u32,
) -> Result<(Part, &'t [Lexeme<'t>]), Stop<'t>>
    requires few { levels < 256 }
    requires within { first.height < levels }
    requires height { first.height ≡ height_of (expression_of first.expr) }
    ensures reads { Gives (λ x. (expression_of x.0.expr, x.1.now)) result (read.replication (inner_of levels) (expression_of first.expr) (source_place place) tokens.now) }
    ensures height { IfOk result (λ x. (x.0.height ≡ height_of (expression_of x.0.expr)) × (x.0.height ≤ levels)) }
    ensures shorter { IfOk result (λ x. length x.1.now ≤ length tokens.now) }
{
    let count = boxed(alloc, first)?;
    let (_, rest) = step(tokens)?;
    let (part, rest) = below(alloc, rest, 11, levels)?;
    let (row, rest) = more(alloc, rest, part, levels)?;
    let (_, rest) = expect(rest, Class::RightBrace)?;
    let (_, rest) = expect(rest, Class::RightBrace)?;
    let height = count.height.max(row.height) + 1;
    let expr = Expr::Repeat {
        place,
        count: count.expr,
        parts: row.parts,
    };
    Ok((Part { expr, height }, rest))
}

/// The parts of a concatenation behind its first one, and its end.
#[cycle(expression)]
#[tactic(auto, unfolding(crate::specs::Expressions::concatenation))]
fn concatenation<'t>(
    alloc: Global,
    tokens: &'t [Lexeme<'t>],
    first: Part,
    place: Place,
    levels: u32,
) -> Result<(Part, &'t [Lexeme<'t>]), Stop<'t>>
    requires few { levels < 256 }
    requires within { first.height < levels }
    requires height { first.height ≡ height_of (expression_of first.expr) }
    ensures reads { Gives (λ x. (expression_of x.0.expr, x.1.now)) result (read.concatenation (inner_of levels) (expression_of first.expr) (source_place place) tokens.now) }
    ensures height { IfOk result (λ x. (x.0.height ≡ height_of (expression_of x.0.expr)) × (x.0.height ≤ levels)) }
    ensures shorter { IfOk result (λ x. length x.1.now ≤ length tokens.now) }
{
    let (row, rest) = more(alloc, tokens, first, levels)?;
    let (_, rest) = expect(rest, Class::RightBrace)?;
    let height = row.height + 1;
    let expr = Expr::Concat {
        place,
        parts: row.parts,
    };
    Ok((Part { expr, height }, rest))
}

/// A row of one part, before these tokens.
fn begun<'t>(
    alloc: Global,
    tokens: &'t [Lexeme<'t>],
    first: Part,
) -> Result<(Row, &'t [Lexeme<'t>]), NoMemory>
    ensures parts { IfOk result (λ x. x.0.parts.items ≡ first.expr ∷ []) }
    ensures height { IfOk result (λ x. x.0.height ≡ first.height) }
    ensures rest { IfOk result (λ x. x.1.now ≡ tokens.now) }
{
    let mut parts = Vec::new(alloc);
    parts.push(first.expr)?;
    Ok((
        Row {
            parts,
            height: first.height,
        },
        tokens,
    ))
}

/// The parts behind a first one, each behind a comma.
#[cycle(expression)]
fn more<'t>(
    alloc: Global,
    tokens: &'t [Lexeme<'t>],
    first: Part,
    levels: u32,
) -> Result<(Row, &'t [Lexeme<'t>]), Stop<'t>>
    requires few { levels < 256 }
    requires within { first.height < levels }
    requires height { first.height ≡ height_of (expression_of first.expr) }
    ensures reads { Gives (λ x. (map expression_of x.0.parts.items, x.1.now)) result (repeat (element_turn classes.Comma (inner_of levels 11)) (expression_of first.expr ∷ []) tokens.now) }
    ensures height { IfOk result (λ x. (x.0.height ≡ heights_of (parts_of (map expression_of x.0.parts.items))) × (x.0.height < levels)) }
    ensures shorter { IfOk result (λ x. length x.1.now ≤ length tokens.now) }
{
    let (row, mut rest) = begun(alloc, tokens, first)?;
    let mut height = row.height;
    let mut parts = row.parts;
    'parts: while is_next(rest, Class::Comma) {
        let (_, after) = step(rest)?;
        let (part, after) = below(alloc, after, 11, levels)?;
        height = height.max(part.height);
        parts.push(part.expr)?;
        rest = after;
    }
    Ok((Row { parts, height }, rest))
}

/// One more operand, behind its operator.
#[cycle(expression)]
fn operand<'t>(
    alloc: Global,
    tokens: &'t [Lexeme<'t>],
    left: Part,
    operator: BinaryOperator,
    levels: u32,
) -> Result<(Part, &'t [Lexeme<'t>]), Stop<'t>>
    requires few { levels < 256 }
    requires within { left.height ≤ levels }
    requires height { left.height ≡ height_of (expression_of left.expr) }
    ensures reads { Gives (λ x. (Some (expression_of x.0.expr), x.1.now)) result (read.operand_by levels (inner_of levels) (expression_of left.expr) (Some operator) tokens.now) }
    ensures height { IfOk result (λ x. (x.0.height ≡ height_of (expression_of x.0.expr)) × (x.0.height ≤ levels)) }
    ensures shorter { IfOk result (λ x. length x.1.now < length tokens.now) }
{
    let place = place_of(&left.expr);
    let left = boxed(alloc, left)?;
    let (_, rest) = down(tokens, left.height, levels)?;
    let (right, rest) = inner(alloc, rest, operand_rank(operator), levels)?;
    let height = left.height.max(right.height) + 1;
    let expr = Expr::Binary {
        place,
        operator,
        left: left.expr,
        right: right.expr,
    };
    Ok((Part { expr, height }, rest))
}

/// Operands with operators up to a level, grouped to the left.
#[cycle(expression)]
#[tactic(auto, unfolding(crate::specs::Expressions::operands))]
fn operands<'t>(
    alloc: Global,
    tokens: &'t [Lexeme<'t>],
    greatest: u8,
    levels: u32,
) -> Result<(Part, &'t [Lexeme<'t>]), Stop<'t>>
    requires { levels < 256 }
    ensures reads { Gives (λ x. (expression_of x.0.expr, x.1.now)) result (read.operands levels (inner_of levels) greatest tokens.now) }
    ensures height { IfOk result (λ x. (x.0.height ≡ height_of (expression_of x.0.expr)) × (x.0.height ≤ levels)) }
    ensures shorter { IfOk result (λ x. length x.1.now ≤ length tokens.now) }
{
    let (mut left, mut rest) = primary(alloc, tokens, levels)?;
    'operands: while let Some(operator) = joining(greatest, rank_of(&left.expr), next_class(rest)) {
        (left, rest) = operand(alloc, rest, left, operator, levels)?;
    }
    Ok((left, rest))
}

/// Operands, and a choice behind them if there is one.
#[cycle(expression)]
#[tactic(auto, unfolding(crate::specs::Expressions::choice))]
fn choice<'t>(
    alloc: Global,
    tokens: &'t [Lexeme<'t>],
    levels: u32,
) -> Result<(Part, &'t [Lexeme<'t>]), Stop<'t>>
    requires { levels < 256 }
    ensures reads { Gives (λ x. (expression_of x.0.expr, x.1.now)) result (read.choice levels (inner_of levels) tokens.now) }
    ensures height { IfOk result (λ x. (x.0.height ≡ height_of (expression_of x.0.expr)) × (x.0.height ≤ levels)) }
    ensures shorter { IfOk result (λ x. length x.1.now ≤ length tokens.now) }
{
    let (condition, rest) = operands(alloc, tokens, 10, levels)?;
    match next_class(rest) {
        Some(Class::Question) => branches(alloc, rest, condition, levels),
        _ => Ok((condition, rest)),
    }
}

/// The branches of a choice behind its condition.
#[cycle(expression)]
#[tactic(auto, unfolding(crate::specs::Expressions::branches))]
fn branches<'t>(
    alloc: Global,
    tokens: &'t [Lexeme<'t>],
    condition: Part,
    levels: u32,
) -> Result<(Part, &'t [Lexeme<'t>]), Stop<'t>>
    requires few { levels < 256 }
    requires within { condition.height ≤ levels }
    requires height { condition.height ≡ height_of (expression_of condition.expr) }
    ensures reads { Gives (λ x. (expression_of x.0.expr, x.1.now)) result (read.branches levels (inner_of levels) (expression_of condition.expr) tokens.now) }
    ensures height { IfOk result (λ x. (x.0.height ≡ height_of (expression_of x.0.expr)) × (x.0.height ≤ levels)) }
    ensures shorter { IfOk result (λ x. length x.1.now ≤ length tokens.now) }
{
    let place = place_of(&condition.expr);
    let condition = boxed(alloc, condition)?;
    let (_, rest) = down(tokens, condition.height, levels)?;
    let (first, rest) = inner(alloc, rest, 11, levels)?;
    let (_, rest) = expect(rest, Class::Colon)?;
    let (second, rest) = inner(alloc, rest, 11, levels)?;
    let height = condition.height.max(first.height.max(second.height)) + 1;
    let expr = Expr::Conditional {
        place,
        condition: condition.expr,
        first: first.expr,
        second: second.expr,
    };
    Ok((Part { expr, height }, rest))
}

/// An expression of at most this rank, one level down.
#[cycle(expression)]
#[tactic(auto, using(crate::proofs::Steps::inner_of_operands, crate::proofs::Steps::inner_of_choice))]
fn below<'t>(
    alloc: Global,
    tokens: &'t [Lexeme<'t>],
    rank: u8,
    levels: u32,
) -> Result<(Part, &'t [Lexeme<'t>]), Stop<'t>>
    requires few { levels < 256 }
    requires some { 0 < levels }
    ensures reads { Gives (λ x. (expression_of x.0.expr, x.1.now)) result (inner_of levels rank tokens.now) }
    ensures height { IfOk result (λ x. (x.0.height ≡ height_of (expression_of x.0.expr)) × (x.0.height < levels)) }
    ensures shorter { IfOk result (λ x. length x.1.now ≤ length tokens.now) }
{
    if rank <= 10 {
        operands(alloc, tokens, rank, levels - 1)
    } else {
        choice(alloc, tokens, levels - 1)
    }
}

/// An expression of at most this rank, one level down, as a node holds it.
#[cycle(expression)]
fn inner<'t>(
    alloc: Global,
    tokens: &'t [Lexeme<'t>],
    rank: u8,
    levels: u32,
) -> Result<(Held, &'t [Lexeme<'t>]), Stop<'t>>
    requires few { levels < 256 }
    requires some { 0 < levels }
    ensures reads { Gives (λ x. (expression_of x.0.expr.value, x.1.now)) result (inner_of levels rank tokens.now) }
    ensures height { IfOk result (λ x. (x.0.height ≡ height_of (expression_of x.0.expr.value)) × (x.0.height < levels)) }
    ensures shorter { IfOk result (λ x. length x.1.now ≤ length tokens.now) }
{
    let (part, rest) = below(alloc, tokens, rank, levels)?;
    let held = boxed(alloc, part)?;
    Ok((held, rest))
}

/// An expression with at most so many levels below its outermost one.
#[tactic(auto, unfolding(crate::specs::Expressions::expression))]
pub fn expression<'t>(
    alloc: Global,
    tokens: &'t [Lexeme<'t>],
    levels: u32,
) -> Result<(Expr, &'t [Lexeme<'t>]), Stop<'t>>
    requires { levels < 256 }
    ensures reads { Gives (λ x. (expression_of x.0, x.1.now)) result (read.expression levels tokens.now) }
    ensures shorter { IfOk result (λ x. length x.1.now ≤ length tokens.now) }
{
    let (part, rest) = choice(alloc, tokens, levels)?;
    Ok((part.expr, rest))
}
