// Statements without statements in them, and what the loops over bodies and items ask.

ghost use Rattle.std.specs.Prelude.{◌≡◌, ◌+◌, ◌≤◌, ◌<◌, List, [], ◌∷◌, map, length, IfOk};
ghost use Rattle.vf_base.specs.Base.{source_place};
ghost use Rattle.v_tree.specs.Views.{expression_of, statement_of};
ghost use Rattle.v_tree.specs.CaseParts.{case_part_of};
ghost use Rattle.v_readers.specs.Given.{Gives};
ghost use Rattle.v_readers.specs.Reading.{by_class, next_class};
ghost use Rattle.v_readers.specs.Separated.{separated};
ghost use Rattle.v_readers.specs.declared.class.Class.TheVariants as classes;
ghost use Rattle.v_expr.specs.Parts.{inner_expression};
ghost use Rattle.v_stmt.specs.Spelling.{defaults_in, is_unfinished};
ghost use Rattle.v_stmt.specs.Statements as read;
ghost use Rattle.v_stmt.specs.Statements.{items_list};

use crate::parts::{InnerExpressionReader, assignment, task};
use std::alloc::Global;
use v_expr::separated;
use v_readers::{Class, Lexeme, Stop, next_class, step};
use v_tree::{CaseItem, Expr, Stmt};
use vf_base::{NoMemory, Seq};

/// A statement, and whether an `else` behind it would be its own.
#[derive(Drop)]
pub struct Piece {
    pub stmt: Stmt,
    pub unfinished: bool,
}

/// A statement that another one holds, and whether an `else` behind it would be its own.
#[derive(Drop)]
pub struct Held {
    pub stmt: Box<Stmt>,
    pub unfinished: bool,
}

/// A statement with a condition and a body.
#[derive(Clone, Copy)]
pub enum LoopKind {
    While,
    Repeat,
    Wait,
}

/// A statement as another one holds it.
pub fn boxed(alloc: Global, piece: Piece) -> Result<Held, NoMemory>
    ensures made { IfOk result (λ held. statement_of held.stmt.value ≡ statement_of piece.stmt) }
    ensures unfinished { IfOk result (λ held. held.unfinished ≡ piece.unfinished) }
{
    let Piece { stmt, unfinished } = piece;
    let stmt = Box::new(alloc, stmt)?;
    Ok(Held { stmt, unfinished })
}

/// Whether a statement begins with the next token.
pub fn begins(tokens: &[Lexeme]) -> bool
    ensures { result ≡ read.begins (next_class tokens.now) }
{
    match next_class(tokens) {
        Some(Class::Semicolon) => true,
        Some(Class::Begin) => true,
        Some(Class::If) => true,
        Some(Class::Case) => true,
        Some(Class::CaseZ) => true,
        Some(Class::CaseX) => true,
        Some(Class::For) => true,
        Some(Class::While) => true,
        Some(Class::Repeat) => true,
        Some(Class::Forever) => true,
        Some(Class::Wait) => true,
        Some(Class::At) => true,
        Some(Class::Hash) => true,
        Some(Class::Name) => true,
        Some(Class::LeftBrace) => true,
        Some(Class::IgnoredTask) => true,
        Some(Class::FinishTask) => true,
        _ => false,
    }
}

/// The labels of an item of a case.
pub fn labels<'t>(
    alloc: Global,
    tokens: &'t [Lexeme<'t>],
    levels: u32,
) -> Result<(Seq<Expr>, &'t [Lexeme<'t>]), Stop<'t>>
    requires few { levels < 256 }
    requires some { 0 < levels }
    ensures reads { Gives (λ x. (map expression_of x.0, x.1.now)) result (separated classes.Comma (inner_expression levels) tokens.now) }
    ensures shorter { IfOk result (λ x. length x.1.now ≤ length tokens.now) }
{
    separated(alloc, tokens, &InnerExpressionReader { levels })
}

/// Whether a default is among the items of a case.
pub fn has_default(items: &[CaseItem]) -> bool
    ensures { result ≡ read.has_default (map case_part_of items.now) }
{
    for item in items {
        if let CaseItem::Default { .. } = item {
            return true;
        }
    }
    false
}

/// A statement of one part, which has no statement in it.
pub fn simple<'t>(
    alloc: Global,
    tokens: &'t [Lexeme<'t>],
    levels: u32,
) -> Result<(Piece, &'t [Lexeme<'t>]), Stop<'t>>
    requires { levels < 256 }
    ensures reads { Gives (λ x. (statement_of x.0.stmt, x.1.now)) result (by_class (read.simple_by levels) tokens.now) }
    ensures unfinished { IfOk result (λ x. x.0.unfinished ≡ is_unfinished (statement_of x.0.stmt)) }
    ensures shorter { IfOk result (λ x. length x.1.now < length tokens.now) }
{
    let (stmt, rest) = match next_class(tokens) {
        Some(Class::Semicolon) => {
            let (place, rest) = step(tokens)?;
            (Stmt::Null { place }, rest)
        }
        Some(Class::Name) => assignment(alloc, tokens, levels)?,
        Some(Class::LeftBrace) => assignment(alloc, tokens, levels)?,
        Some(Class::IgnoredTask) => {
            let (place, rest) = task(tokens, Class::IgnoredTask)?;
            (Stmt::IgnoredTask { place }, rest)
        }
        Some(Class::FinishTask) => {
            let (place, rest) = task(tokens, Class::FinishTask)?;
            (Stmt::Finish { place }, rest)
        }
        _ => return Err(Stop::Wrong(tokens)),
    };
    Ok((
        Piece {
            stmt,
            unfinished: false,
        },
        rest,
    ))
}
