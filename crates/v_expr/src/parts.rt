// Reading selects, targets, ranges and delays.

ghost use Rattle.std.specs.Prelude.{◌≡◌, ◌+◌, ◌≤◌, ◌<◌, length, IfOk};
ghost use Rattle.v_tree.specs.Views.{expression_of, select_of, target_of, range_of};
ghost use Rattle.v_readers.specs.Given.{Gives};
ghost use Rattle.v_expr.specs.Parts as read;

use crate::expressions::{expression, index, literal};
use crate::readers::{PartReader, closed, separated, with_next};
use std::alloc::Global;
use v_readers::{Class, Lexeme, Stop, down, expect, name, next_class, step};
use v_tree::{Expr, Range, Select, Target};

/// Reads expressions within so many levels.
#[derive(Drop)]
pub struct ExpressionReader {
    pub levels: u32,
}

impl PartReader for ExpressionReader {
    ghost use Rattle.std.specs.Prelude.{◌<◌};
    ghost use Rattle.v_tree.specs.Trees.{SourceExpression};
    ghost use Rattle.v_tree.specs.Views.{expression_of};
    ghost use Rattle.v_expr.specs.Expressions.{expression};

    type Part = Expr;

    ghost Tree = { SourceExpression };

    ghost tree_of = { expression_of };

    ghost reader = { λ it. expression it.levels };

    ghost can_read = { λ it. it.levels < 256 };

    fn read<'t>(
        &self,
        alloc: Global,
        tokens: &'t [Lexeme<'t>],
    ) -> Result<(Expr, &'t [Lexeme<'t>]), Stop<'t>> {
        expression(alloc, tokens, self.levels)
    }
}

/// An expression, one level down.
#[tactic(auto, using(crate::proofs::Below::inner_expression_is))]
pub fn inner_expression<'t>(
    alloc: Global,
    tokens: &'t [Lexeme<'t>],
    levels: u32,
) -> Result<(Expr, &'t [Lexeme<'t>]), Stop<'t>>
    requires few { levels < 256 }
    requires some { 0 < levels }
    ensures reads { Gives (λ x. (expression_of x.0, x.1.now)) result (read.inner_expression levels tokens.now) }
    ensures shorter { IfOk result (λ x. length x.1.now ≤ length tokens.now) }
{
    expression(alloc, tokens, levels - 1)
}

/// A name with what stands in brackets behind it.
#[tactic(auto, unfolding(crate::specs::Parts::select))]
pub fn select<'t>(
    alloc: Global,
    tokens: &'t [Lexeme<'t>],
    levels: u32,
) -> Result<(Select, &'t [Lexeme<'t>]), Stop<'t>>
    requires { levels < 256 }
    ensures reads { Gives (λ x. (select_of x.0, x.1.now)) result (read.select levels tokens.now) }
    ensures shorter { IfOk result (λ x. length x.1.now < length tokens.now) }
{
    let ((name, place), rest) = name(alloc, tokens)?;
    let (behind, rest) = index(alloc, rest, levels)?;
    Ok((
        Select {
            place,
            name,
            index: behind.index,
        },
        rest,
    ))
}

/// A select, one level down.
#[tactic(auto, using(crate::proofs::Below::inner_select_is))]
pub fn inner_select<'t>(
    alloc: Global,
    tokens: &'t [Lexeme<'t>],
    levels: u32,
) -> Result<(Select, &'t [Lexeme<'t>]), Stop<'t>>
    requires few { levels < 256 }
    requires some { 0 < levels }
    ensures reads { Gives (λ x. (select_of x.0, x.1.now)) result (read.inner_select levels tokens.now) }
    ensures shorter { IfOk result (λ x. length x.1.now < length tokens.now) }
{
    select(alloc, tokens, levels - 1)
}

/// Reads selects one level down.
#[derive(Drop)]
struct InnerSelectReader {
    levels: u32,
}

impl PartReader for InnerSelectReader {
    ghost use Rattle.std.specs.Prelude.{◌<◌};
    ghost use Rattle.v_tree.specs.Trees.{SourceSelect};
    ghost use Rattle.v_tree.specs.Views.{select_of};
    ghost use Rattle.v_expr.specs.Parts.{inner_select};

    type Part = Select;

    ghost Tree = { SourceSelect };

    ghost tree_of = { select_of };

    ghost reader = { λ it. inner_select it.levels };

    ghost can_read = { λ it. (0 < it.levels) × (it.levels < 256) };

    fn read<'t>(
        &self,
        alloc: Global,
        tokens: &'t [Lexeme<'t>],
    ) -> Result<(Select, &'t [Lexeme<'t>]), Stop<'t>> {
        inner_select(alloc, tokens, self.levels)
    }
}

/// Selects in braces.
fn joined<'t>(
    alloc: Global,
    tokens: &'t [Lexeme<'t>],
    levels: u32,
) -> Result<(Target, &'t [Lexeme<'t>]), Stop<'t>>
    requires { levels < 256 }
    ensures reads { Gives (λ x. (target_of x.0, x.1.now)) result (read.joined levels tokens.now) }
    ensures shorter { IfOk result (λ x. length x.1.now < length tokens.now) }
{
    let (place, rest) = down(tokens, 0, levels)?;
    let (selects, rest) = separated(alloc, rest, &InnerSelectReader { levels })?;
    let (selects, _, rest) = closed(selects, rest, Class::RightBrace)?;
    Ok((Target::Joined(place, selects), rest))
}

/// What is assigned: a select, or several in braces.
#[tactic(auto, unfolding(crate::specs::Parts::target))]
pub fn target<'t>(
    alloc: Global,
    tokens: &'t [Lexeme<'t>],
    levels: u32,
) -> Result<(Target, &'t [Lexeme<'t>]), Stop<'t>>
    requires { levels < 256 }
    ensures reads { Gives (λ x. (target_of x.0, x.1.now)) result (read.target levels tokens.now) }
    ensures shorter { IfOk result (λ x. length x.1.now < length tokens.now) }
{
    match next_class(tokens) {
        Some(Class::Name) => {
            let (select, rest) = select(alloc, tokens, levels)?;
            Ok((Target::One(select), rest))
        }
        Some(Class::LeftBrace) => joined(alloc, tokens, levels),
        _ => Err(Stop::Wrong(tokens)),
    }
}

/// A target, one level down.
#[tactic(auto, using(crate::proofs::Below::inner_target_is))]
pub fn inner_target<'t>(
    alloc: Global,
    tokens: &'t [Lexeme<'t>],
    levels: u32,
) -> Result<(Target, &'t [Lexeme<'t>]), Stop<'t>>
    requires few { levels < 256 }
    requires some { 0 < levels }
    ensures reads { Gives (λ x. (target_of x.0, x.1.now)) result (read.inner_target levels tokens.now) }
    ensures shorter { IfOk result (λ x. length x.1.now < length tokens.now) }
{
    target(alloc, tokens, levels - 1)
}

/// A range, whose bounds have at most so many levels below their outermost ones.
#[tactic(auto, unfolding(crate::specs::Parts::range))]
pub fn range<'t>(
    alloc: Global,
    tokens: &'t [Lexeme<'t>],
    levels: u32,
) -> Result<(Range, &'t [Lexeme<'t>]), Stop<'t>>
    requires { levels < 256 }
    ensures reads { Gives (λ x. (range_of x.0, x.1.now)) result (read.range levels tokens.now) }
    ensures shorter { IfOk result (λ x. length x.1.now < length tokens.now) }
{
    let (place, rest) = expect(tokens, Class::LeftBracket)?;
    let (high, rest) = expression(alloc, rest, levels)?;
    let (high, _, rest) = closed(high, rest, Class::Colon)?;
    let (high, low, rest) = with_next(high, alloc, rest, &ExpressionReader { levels })?;
    let range = Range { place, high, low };
    let (range, _, rest) = closed(range, rest, Class::RightBracket)?;
    Ok((range, rest))
}

/// An expression in parentheses, without a node for them.
fn parenthesised<'t>(
    alloc: Global,
    tokens: &'t [Lexeme<'t>],
    levels: u32,
) -> Result<(Expr, &'t [Lexeme<'t>]), Stop<'t>>
    requires { levels < 256 }
    ensures reads { Gives (λ x. (expression_of x.0, x.1.now)) result (read.parenthesised levels tokens.now) }
    ensures shorter { IfOk result (λ x. length x.1.now < length tokens.now) }
{
    let (_, rest) = step(tokens)?;
    let (expr, rest) = expression(alloc, rest, levels)?;
    let (expr, _, rest) = closed(expr, rest, Class::RightParen)?;
    Ok((expr, rest))
}

/// A delay behind its `#`: a number, a name, or an expression in parentheses.
#[tactic(auto, unfolding(crate::specs::Parts::delay))]
pub fn delay<'t>(
    alloc: Global,
    tokens: &'t [Lexeme<'t>],
    levels: u32,
) -> Result<(Expr, &'t [Lexeme<'t>]), Stop<'t>>
    requires { levels < 256 }
    ensures reads { Gives (λ x. (expression_of x.0, x.1.now)) result (read.delay levels tokens.now) }
    ensures shorter { IfOk result (λ x. length x.1.now < length tokens.now) }
{
    match next_class(tokens) {
        Some(Class::Number) => literal(tokens),
        Some(Class::Name) => {
            let ((name, place), rest) = name(alloc, tokens)?;
            Ok((Expr::Name { place, name }, rest))
        }
        Some(Class::LeftParen) => parenthesised(alloc, tokens, levels),
        _ => Err(Stop::Wrong(tokens)),
    }
}

/// A delay, one level down.
#[tactic(auto, using(crate::proofs::Below::inner_delay_is))]
pub fn inner_delay<'t>(
    alloc: Global,
    tokens: &'t [Lexeme<'t>],
    levels: u32,
) -> Result<(Expr, &'t [Lexeme<'t>]), Stop<'t>>
    requires few { levels < 256 }
    requires some { 0 < levels }
    ensures reads { Gives (λ x. (expression_of x.0, x.1.now)) result (read.inner_delay levels tokens.now) }
    ensures shorter { IfOk result (λ x. length x.1.now < length tokens.now) }
{
    delay(alloc, tokens, levels - 1)
}
