// The mark at the front of a text, the longest (IEEE 1364-2001, clause 2.4).

ghost use Rattle.std.specs.Prelude.{◌≡◌, [], ◌∷◌, Some};
ghost use Rattle.v_scan.specs.Reading.{marks, single_marks, first_mark};

use v_tree::Mark;

/// The mark that `first` and `rest` begin with, if they begin with one.
pub fn mark_at(first: u8, rest: &[u8]) -> Option<Mark>
    ensures { result ≡ first_mark marks (first ∷ rest.now) }
{
    match first {
        b'=' => Some(behind_equals(rest)),
        b'!' => Some(behind_bang(rest)),
        b'<' => Some(behind_less(rest)),
        b'>' => Some(behind_greater(rest)),
        b'&' => Some(behind_and(rest)),
        b'|' => Some(behind_or(rest)),
        b'~' => Some(behind_tilde(rest)),
        b'^' => Some(behind_caret(rest)),
        _ => single_mark(first),
    }
}

/// The mark of `=` and what follows it.
fn behind_equals(rest: &[u8]) -> Mark
    ensures { first_mark marks (61 ∷ rest.now) ≡ Some result }
{
    match rest {
        [b'=', b'=', ..] => Mark::CaseEqual,
        [b'=', ..] => Mark::Equal,
        _ => Mark::Assign,
    }
}

/// The mark of `!` and what follows it.
fn behind_bang(rest: &[u8]) -> Mark
    ensures { first_mark marks (33 ∷ rest.now) ≡ Some result }
{
    match rest {
        [b'=', b'=', ..] => Mark::CaseNotEqual,
        [b'=', ..] => Mark::NotEqual,
        _ => Mark::Bang,
    }
}

/// The mark of `<` and what follows it.
fn behind_less(rest: &[u8]) -> Mark
    ensures { first_mark marks (60 ∷ rest.now) ≡ Some result }
{
    match rest {
        [b'<', b'<', ..] => Mark::ArithmeticShiftLeft,
        [b'<', ..] => Mark::ShiftLeft,
        [b'=', ..] => Mark::LessEqual,
        _ => Mark::Less,
    }
}

/// The mark of `>` and what follows it.
fn behind_greater(rest: &[u8]) -> Mark
    ensures { first_mark marks (62 ∷ rest.now) ≡ Some result }
{
    match rest {
        [b'>', b'>', ..] => Mark::ArithmeticShiftRight,
        [b'>', ..] => Mark::ShiftRight,
        [b'=', ..] => Mark::GreaterEqual,
        _ => Mark::Greater,
    }
}

/// The mark of `&` and what follows it.
fn behind_and(rest: &[u8]) -> Mark
    ensures { first_mark marks (38 ∷ rest.now) ≡ Some result }
{
    match rest {
        [b'&', ..] => Mark::LogicalAnd,
        _ => Mark::And,
    }
}

/// The mark of `|` and what follows it.
fn behind_or(rest: &[u8]) -> Mark
    ensures { first_mark marks (124 ∷ rest.now) ≡ Some result }
{
    match rest {
        [b'|', ..] => Mark::LogicalOr,
        _ => Mark::Or,
    }
}

/// The mark of `~` and what follows it.
fn behind_tilde(rest: &[u8]) -> Mark
    ensures { first_mark marks (126 ∷ rest.now) ≡ Some result }
{
    match rest {
        [b'&', ..] => Mark::Nand,
        [b'|', ..] => Mark::Nor,
        [b'^', ..] => Mark::TildeCaret,
        _ => Mark::Tilde,
    }
}

/// The mark of `^` and what follows it.
fn behind_caret(rest: &[u8]) -> Mark
    ensures { first_mark marks (94 ∷ rest.now) ≡ Some result }
{
    match rest {
        [b'~', ..] => Mark::CaretTilde,
        _ => Mark::Caret,
    }
}

/// The mark of one byte that begins no longer mark.
fn single_mark(first: u8) -> Option<Mark>
    ensures { result ≡ first_mark single_marks (first ∷ []) }
{
    match first {
        b'+' => Some(Mark::Plus),
        b'-' => Some(Mark::Minus),
        b'*' => Some(Mark::Star),
        b'/' => Some(Mark::Slash),
        b'%' => Some(Mark::Percent),
        b'?' => Some(Mark::Question),
        b':' => Some(Mark::Colon),
        b';' => Some(Mark::Semicolon),
        b',' => Some(Mark::Comma),
        b'.' => Some(Mark::Dot),
        b'(' => Some(Mark::LeftParen),
        b')' => Some(Mark::RightParen),
        b'[' => Some(Mark::LeftBracket),
        b']' => Some(Mark::RightBracket),
        b'{' => Some(Mark::LeftBrace),
        b'}' => Some(Mark::RightBrace),
        b'#' => Some(Mark::Hash),
        b'@' => Some(Mark::At),
        _ => None,
    }
}
