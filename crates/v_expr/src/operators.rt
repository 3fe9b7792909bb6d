// Which operator a token stands for, and how tightly it binds (IEEE 1364-2001, clause 4.1).

ghost use Rattle.std.specs.Prelude.{◌≡◌, ◌≤◌, ◌-◌};
ghost use Rattle.vf_base.specs.Base.{source_place};
ghost use Rattle.v_tree.specs.Views.{expression_of};
ghost use Rattle.v_expr.specs.Operators as spec;
ghost use Rattle.v_tree.specs.Trees.{place_of_expression};
ghost use Rattle.v_expr.specs.Spelling.{rank_of};
ghost use Rattle.v_expr.specs.Expressions as read;

use four_value::{BinaryOperator, UnaryOperator};
use v_readers::Class;
use v_tree::Expr;
use vf_base::Place;

/// The operator that a token of this class stands for before an operand.
pub fn unary_of(class: Class) -> Option<UnaryOperator>
    ensures { result ≡ spec.unary_of class }
{
    match class {
        Class::Plus => Some(UnaryOperator::Plus),
        Class::Minus => Some(UnaryOperator::Minus),
        Class::Bang => Some(UnaryOperator::LogicalNot),
        Class::Tilde => Some(UnaryOperator::BitwiseNot),
        Class::And => Some(UnaryOperator::ReduceAnd),
        Class::Nand => Some(UnaryOperator::ReduceNand),
        Class::Or => Some(UnaryOperator::ReduceOr),
        Class::Nor => Some(UnaryOperator::ReduceNor),
        Class::Caret => Some(UnaryOperator::ReduceXor),
        Class::TildeCaret => Some(UnaryOperator::ReduceXnor),
        Class::CaretTilde => Some(UnaryOperator::ReduceXnor),
        _ => None,
    }
}

/// The operator that a token of this class stands for between two operands.
fn binary_of(class: Class) -> Option<BinaryOperator>
    ensures { result ≡ spec.binary_of class }
{
    match class {
        Class::Star => Some(BinaryOperator::Multiply),
        Class::Slash => Some(BinaryOperator::Divide),
        Class::Percent => Some(BinaryOperator::Remainder),
        Class::Plus => Some(BinaryOperator::Add),
        Class::Minus => Some(BinaryOperator::Subtract),
        Class::ShiftLeft => Some(BinaryOperator::ShiftLeft),
        Class::ShiftRight => Some(BinaryOperator::ShiftRight),
        Class::ArithmeticShiftLeft => Some(BinaryOperator::ArithmeticShiftLeft),
        Class::ArithmeticShiftRight => Some(BinaryOperator::ArithmeticShiftRight),
        Class::Less => Some(BinaryOperator::Less),
        Class::LessEqual => Some(BinaryOperator::LessEqual),
        Class::Greater => Some(BinaryOperator::Greater),
        Class::GreaterEqual => Some(BinaryOperator::GreaterEqual),
        Class::Equal => Some(BinaryOperator::Equal),
        Class::NotEqual => Some(BinaryOperator::NotEqual),
        Class::CaseEqual => Some(BinaryOperator::CaseEqual),
        Class::CaseNotEqual => Some(BinaryOperator::CaseNotEqual),
        Class::And => Some(BinaryOperator::BitwiseAnd),
        Class::Caret => Some(BinaryOperator::BitwiseXor),
        Class::TildeCaret => Some(BinaryOperator::BitwiseXnor),
        Class::CaretTilde => Some(BinaryOperator::BitwiseXnor),
        Class::Or => Some(BinaryOperator::BitwiseOr),
        Class::LogicalAnd => Some(BinaryOperator::LogicalAnd),
        Class::LogicalOr => Some(BinaryOperator::LogicalOr),
        _ => None,
    }
}

/// The operator between operands that the next token stands for.
fn operator_of(class: Option<Class>) -> Option<BinaryOperator>
    ensures { result ≡ read.operator_of class }
{
    match class {
        Some(class) => binary_of(class),
        None => None,
    }
}

/// The tighter an operator binds, the lower its level, from 1 to 10.
fn level_of(operator: BinaryOperator) -> u8
    ensures level { result ≡ spec.level_of operator }
    ensures least { 1 ≤ result }
    ensures most { result ≤ 10 }
{
    match operator {
        BinaryOperator::Multiply => 1,
        BinaryOperator::Divide => 1,
        BinaryOperator::Remainder => 1,
        BinaryOperator::Add => 2,
        BinaryOperator::Subtract => 2,
        BinaryOperator::ShiftLeft => 3,
        BinaryOperator::ShiftRight => 3,
        BinaryOperator::ArithmeticShiftLeft => 3,
        BinaryOperator::ArithmeticShiftRight => 3,
        BinaryOperator::Less => 4,
        BinaryOperator::LessEqual => 4,
        BinaryOperator::Greater => 4,
        BinaryOperator::GreaterEqual => 4,
        BinaryOperator::Equal => 5,
        BinaryOperator::NotEqual => 5,
        BinaryOperator::CaseEqual => 5,
        BinaryOperator::CaseNotEqual => 5,
        BinaryOperator::BitwiseAnd => 6,
        BinaryOperator::BitwiseXor => 7,
        BinaryOperator::BitwiseXnor => 7,
        BinaryOperator::BitwiseOr => 8,
        BinaryOperator::LogicalAnd => 9,
        BinaryOperator::LogicalOr => 10,
    }
}

/// The greatest rank of an operator's right operand, since operators of one level group to the left.
pub fn operand_rank(operator: BinaryOperator) -> u8
    ensures rank { result ≡ read.operand_rank operator }
    ensures most { result ≤ 10 }
{
    level_of(operator) - 1
}

/// The operator that an expression of this rank goes on with, up to a greatest level.
pub fn joining(greatest: u8, rank: u8, class: Option<Class>) -> Option<BinaryOperator>
    ensures { result ≡ read.joining greatest rank (read.operator_of class) }
{
    joining_as(greatest, rank, operator_of(class))
}

fn joining_as(greatest: u8, rank: u8, operator: Option<BinaryOperator>) -> Option<BinaryOperator>
    ensures { result ≡ read.joining greatest rank operator }
{
    match operator {
        Some(operator) if level_of(operator) <= greatest && rank <= level_of(operator) => Some(
            operator,
        ),
        _ => None,
    }
}

/// The level of the outermost operator of an expression: 0 where there is none between operands, 11 for a choice.
pub fn rank_of(expr: &Expr) -> u8
    ensures { result ≡ rank_of (expression_of expr.now) }
{
    match expr {
        Expr::Number { .. } => 0,
        Expr::Name { .. } => 0,
        Expr::BitSelect { .. } => 0,
        Expr::PartSelect { .. } => 0,
        Expr::Paren { .. } => 0,
        Expr::Unary { .. } => 0,
        Expr::Binary { operator, .. } => level_of(*operator),
        Expr::Conditional { .. } => 11,
        Expr::Concat { .. } => 0,
        Expr::Repeat { .. } => 0,
    }
}

/// Where an expression begins.
pub fn place_of(expr: &Expr) -> Place
    ensures { source_place result ≡ place_of_expression (expression_of expr.now) }
{
    match expr {
        Expr::Number { place, .. } => *place,
        Expr::Name { place, .. } => *place,
        Expr::BitSelect { place, .. } => *place,
        Expr::PartSelect { place, .. } => *place,
        Expr::Paren { place, .. } => *place,
        Expr::Unary { place, .. } => *place,
        Expr::Binary { place, .. } => *place,
        Expr::Conditional { place, .. } => *place,
        Expr::Concat { place, .. } => *place,
        Expr::Repeat { place, .. } => *place,
    }
}
