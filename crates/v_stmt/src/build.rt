// Statements made of their parts.

ghost use Rattle.std.specs.Prelude.{◌≡◌, map};
ghost use Rattle.vf_base.specs.Base.{source_place};
ghost use Rattle.v_tree.specs.Trees.{BlockStatement, CaseStatement, IfStatement, IfElseStatement};
ghost use Rattle.v_tree.specs.Views.{expression_of, statement_of};
ghost use Rattle.v_tree.specs.CaseParts.{case_part_of};
ghost use Rattle.v_stmt.specs.Spelling.{is_unfinished};
ghost use Rattle.v_stmt.specs.LoopKinds.{looping_of};
ghost use Rattle.v_stmt.specs.Groups.{for_statement, for_head_of};
ghost use Rattle.v_stmt.specs.Statements.{statements_list, items_list};

use crate::parts::{ForHead, ForSteps};
use crate::pieces::LoopKind;
use four_value::CaseKind;
use v_tree::{CaseItem, Expr, Stmt};
use vf_base::Place;

/// A block of these statements.
pub fn block_of(place: Place, statements: Vec<Stmt>) -> Stmt
    ensures { statement_of result ≡ BlockStatement (source_place place) (statements_list (map statement_of statements.items)) }
{
    Stmt::Block { place, statements }
}

/// A case of these items.
pub fn case_of(place: Place, kind: CaseKind, value: Expr, items: Vec<CaseItem>) -> Stmt
    ensures { statement_of result ≡ CaseStatement (source_place place) kind (expression_of value) (items_list (map case_part_of items.items)) }
{
    Stmt::Case {
        place,
        kind,
        value,
        items,
    }
}

/// An `if` without `else`.
pub fn if_of(place: Place, condition: Expr, first: Box<Stmt>) -> Stmt
    ensures { statement_of result ≡ IfStatement (source_place place) (expression_of condition) (statement_of first.value) }
{
    Stmt::If {
        place,
        condition,
        first,
        second: None,
    }
}

/// An `if` with its `else`.
pub fn if_else_of(place: Place, condition: Expr, first: Box<Stmt>, second: Box<Stmt>) -> Stmt
    ensures { statement_of result ≡ IfElseStatement (source_place place) (expression_of condition) (statement_of first.value) (statement_of second.value) }
{
    let second = Some(second);
    Stmt::If {
        place,
        condition,
        first,
        second,
    }
}

/// A statement of this kind with a condition and a body.
pub fn looping(kind: LoopKind, place: Place, condition: Expr, body: Box<Stmt>) -> Stmt
    ensures made { statement_of result ≡ looping_of kind (source_place place) (expression_of condition) (statement_of body.value) }
    ensures unfinished { is_unfinished (statement_of result) ≡ is_unfinished (statement_of body.value) }
{
    match kind {
        LoopKind::While => Stmt::While {
            place,
            condition,
            body,
        },
        LoopKind::Repeat => Stmt::Repeat {
            place,
            count: condition,
            body,
        },
        LoopKind::Wait => Stmt::Wait {
            place,
            condition,
            body,
        },
    }
}

/// A `for` of this head and this body.
pub fn for_of(place: Place, head: ForHead, body: Box<Stmt>) -> Stmt
    ensures made { statement_of result ≡ for_statement (source_place place) (for_head_of head) (statement_of body.value) }
    ensures unfinished { is_unfinished (statement_of result) ≡ is_unfinished (statement_of body.value) }
{
    let ForHead { first, steps } = head;
    let ForSteps { condition, next } = steps;
    Stmt::For {
        place,
        first_target: first.target,
        first: first.value,
        condition,
        next_target: next.target,
        next: next.value,
        body,
    }
}
