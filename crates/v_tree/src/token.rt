// The tokens of a text (IEEE 1364-2001, clauses 2.1 to 2.7).

ghost use Rattle.std.specs.Prelude.{◌≡◌, ◌+◌, ◌<◌, ◌^◌};

use four_value::Vec4;
use std::marker::Model;
use vf_base::{Place, Text};

/// How a number is written, which decides its size and its sign in an expression (clause 2.5.1).
#[derive(Clone, Copy, PartialEq, Eq, Debug)]
pub enum NumberForm {
    /// A decimal number alone, of 32 bits: signed up to 2,147,483,647, above it unsigned.
    Plain,
    /// A base without a size: unsigned, of 32 bits.
    Unsized,
    /// A size and a base: unsigned.
    Sized,
    /// A base with `s` without a size: signed, of 32 bits.
    UnsizedSigned,
    /// A size and a base with `s`: signed.
    SizedSigned,
}

/// The operators and the marks between the parts of a text (clause 2.4 and annex A).
#[derive(Clone, Copy, PartialEq, Eq, Debug)]
pub enum Mark {
    /// `===`
    CaseEqual,
    /// `!==`
    CaseNotEqual,
    /// `<<<`
    ArithmeticShiftLeft,
    /// `>>>`
    ArithmeticShiftRight,
    /// `&&`
    LogicalAnd,
    /// `||`
    LogicalOr,
    /// `==`
    Equal,
    /// `!=`
    NotEqual,
    /// `<=`, the comparison and the nonblocking assignment
    LessEqual,
    /// `>=`
    GreaterEqual,
    /// `<<`
    ShiftLeft,
    /// `>>`
    ShiftRight,
    /// `~&`
    Nand,
    /// `~|`
    Nor,
    /// `~^`
    TildeCaret,
    /// `^~`
    CaretTilde,
    /// `+`
    Plus,
    /// `-`
    Minus,
    /// `*`
    Star,
    /// `/`
    Slash,
    /// `%`
    Percent,
    /// `!`
    Bang,
    /// `~`
    Tilde,
    /// `&`
    And,
    /// `|`
    Or,
    /// `^`
    Caret,
    /// `<`
    Less,
    /// `>`
    Greater,
    /// `=`
    Assign,
    /// `?`
    Question,
    /// `:`
    Colon,
    /// `;`
    Semicolon,
    /// `,`
    Comma,
    /// `.`
    Dot,
    /// `(`
    LeftParen,
    /// `)`
    RightParen,
    /// `[`
    LeftBracket,
    /// `]`
    RightBracket,
    /// `{`
    LeftBrace,
    /// `}`
    RightBrace,
    /// `#`
    Hash,
    /// `@`
    At,
}

/// What a token is.
#[derive(Drop)]
pub enum TokenKind {
    /// A name or a word of the grammar.
    Word(Text),
    /// A name behind a `$`, with the `$`.
    System(Text),
    /// A number, its value and how it is written.
    Number(Vec4, NumberForm),
    /// An operator or a mark.
    Mark(Mark),
    /// A string; what stands in it is not kept.
    Str,
}

/// A token with the place of its first byte, which contracts see as the pair of both.
///
/// The column leaves room for the place behind a token: `column + 1` is a `u32` too.
#[derive(Drop)]
pub struct Token {
    kind: TokenKind,
    place: Place,
}

impl Model for Token {
    ghost use Rattle.std.specs.Prelude.{◌+◌, ◌<◌, ◌^◌};
    ghost use Rattle.v_tree.specs.Tokens.{SourceToken};

    ghost Value = { SourceToken };

    ghost view = { λ t. record { kind = t.kind; place = t.place } };

    ghost invariant = { λ t. t.place.column + 1 < 2 ^ 32 };
}

impl Token {
    /// The token of this kind at this place.
    pub fn new(kind: TokenKind, place: Place) -> Token
        requires { place.column + 1 < 2 ^ 32 }
        ensures { result ≡ record { kind = kind; place = place } }
    {
        Token { kind, place }
    }

    /// What the token is.
    pub fn kind(&self) -> &TokenKind
        ensures { result.now ≡ self.now.kind }
    {
        &self.kind
    }

    /// Where the token begins.
    pub fn place(&self) -> Place
        ensures place { result ≡ self.now.place }
        ensures column { result.column + 1 < 2 ^ 32 }
    {
        self.place
    }
}
