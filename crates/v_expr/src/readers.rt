// Readers put together. A value that was read goes on through a call here where a later step may stop, so that callers hold none over a `?`.

ghost use Rattle.std.specs.Prelude.{◌≡◌, ◌+◌, ◌≤◌, List, [], ◌∷◌, map, length, IfOk};
ghost use Rattle.vf_base.specs.Base.{source_place};
ghost use Rattle.v_readers.specs.Given.{Gives};
ghost use Rattle.v_readers.specs.Reading.{expect};
ghost use Rattle.v_readers.specs.Separated.{separated};
ghost use Rattle.v_readers.specs.declared.class.Class.TheVariants as classes;

use std::alloc::Global;
use v_readers::{Class, Lexeme, Stop, expect, is_next, step};
use vf_base::{Place, Seq};

/// What reads a part from the front of the tokens, as a reader of `specs` does.
pub trait PartReader {
    ghost use Rattle.v_readers.specs.Reading.{Reader};

    type Part: Drop;

    /// The trees of its parts.
    ghost Tree: { Type 0 };

    /// The tree of a part.
    ghost tree_of: { Self.Part → Tree };

    /// The reader that it does as.
    ghost reader: { Self → Reader Tree };

    /// Whether it may be asked to read.
    ghost can_read: { Self → Type 0 };

    /// Reads a part.
    fn read<'t>(
        &self,
        alloc: Global,
        tokens: &'t [Lexeme<'t>],
    ) -> Result<(Self::Part, &'t [Lexeme<'t>]), Stop<'t>>
        requires { can_read self.now }
        ensures reads { Gives (λ x. (tree_of x.0, x.1.now)) result (reader self.now tokens.now) }
        ensures shorter { IfOk result (λ x. length x.1.now ≤ length tokens.now) };
}

/// A value that was read, where a token of this class stands behind it, and the place of that token.
pub fn closed<'t, T: Drop>(
    value: T,
    tokens: &'t [Lexeme<'t>],
    class: Class,
) -> Result<(T, Place, &'t [Lexeme<'t>]), Stop<'t>>
    ensures value { IfOk result (λ x. x.0 ≡ value) }
    ensures reads { Gives (λ x. (source_place x.1, x.2.now)) result (expect class tokens.now) }
    ensures shorter { IfOk result (λ x. length x.2.now + 1 ≡ length tokens.now) }
{
    let (place, rest) = expect(tokens, class)?;
    Ok((value, place, rest))
}

/// A value that was read, and what is read behind it.
pub fn with_next<'t, T: Drop, R: PartReader>(
    value: T,
    alloc: Global,
    tokens: &'t [Lexeme<'t>],
    next: &R,
) -> Result<(T, R::Part, &'t [Lexeme<'t>]), Stop<'t>>
    requires { R.can_read next.now }
    ensures value { IfOk result (λ x. x.0 ≡ value) }
    ensures reads { Gives (λ x. (R.tree_of x.1, x.2.now)) result (R.reader next.now tokens.now) }
    ensures shorter { IfOk result (λ x. length x.2.now ≤ length tokens.now) }
{
    let (part, rest) = next.read(alloc, tokens)?;
    Ok((value, part, rest))
}

/// Parts, one at least, with a comma between them.
#[tactic(auto, unfolding(v_readers::specs::Separated::separated))]
pub fn separated<'t, R: PartReader>(
    alloc: Global,
    tokens: &'t [Lexeme<'t>],
    parts: &R,
) -> Result<(Seq<R::Part>, &'t [Lexeme<'t>]), Stop<'t>>
    requires { R.can_read parts.now }
    ensures reads { Gives (λ x. (map R.tree_of x.0, x.1.now)) result (separated classes.Comma (R.reader parts.now) tokens.now) }
    ensures shorter { IfOk result (λ x. length x.1.now ≤ length tokens.now) }
{
    let (first, mut rest) = parts.read(alloc, tokens)?;
    let mut row = Vec::new(alloc);
    row.push(first)?;
    'row: while is_next(rest, Class::Comma) {
        let (_, after) = step(rest)?;
        let (next, after) = parts.read(alloc, after)?;
        row.push(next)?;
        rest = after;
    }
    Ok((Seq::from_vec(row), rest))
}

/// Reads parts, one at least, with a comma between them.
#[derive(Drop)]
pub struct SeparatedReader<R> {
    pub part: R,
}

impl<R: PartReader> PartReader for SeparatedReader<R> {
    ghost use Rattle.std.specs.Prelude.{List, map};
    ghost use Rattle.v_readers.specs.Separated.{separated};
    ghost use Rattle.v_readers.specs.declared.class.Class.TheVariants.{Comma};

    type Part = Seq<R::Part>;

    ghost Tree = { List R.Tree };

    ghost tree_of = { λ row. map R.tree_of row };

    ghost reader = { λ it. separated Comma (R.reader it.part) };

    ghost can_read = { λ it. R.can_read it.part };

    fn read<'t>(
        &self,
        alloc: Global,
        tokens: &'t [Lexeme<'t>],
    ) -> Result<(Seq<R::Part>, &'t [Lexeme<'t>]), Stop<'t>> {
        separated(alloc, tokens, &self.part)
    }
}
