// Readers of one token.

ghost use Rattle.std.specs.Prelude.{◌≡◌, ◌+◌, ◌<◌, ◌↔◌, length, IfOk, IsTrue, Some, None};
ghost use Rattle.vf_base.specs.Base.{source_place};
ghost use Rattle.v_readers.specs.Classes.{class_of};
ghost use Rattle.v_readers.specs.Given.{Gives};
ghost use Rattle.v_readers.specs.Reading as reading;

use crate::class::Class;
use crate::lexeme::Lexeme;
use crate::stop::Stop;
use four_value::Vec4;
use std::alloc::Global;
use v_tree::{NumberForm, Token, TokenKind};
use vf_base::{Place, Text};

/// The class of the next token.
pub fn next_class(tokens: &[Lexeme]) -> Option<Class>
    ensures { result ≡ reading.next_class tokens.now }
{
    match tokens {
        [token, ..] => Some(token.class()),
        [] => None,
    }
}

/// Whether the next token is of this class.
pub fn is_next(tokens: &[Lexeme], class: Class) -> bool
    ensures { result ≡ reading.is_class class (reading.next_class tokens.now) }
{
    match tokens {
        [token, ..] => class.is(token.class()),
        [] => false,
    }
}

/// Passes the next token, and gives it.
fn next<'t>(tokens: &'t [Lexeme<'t>]) -> Result<(&'t Token, &'t [Lexeme<'t>]), Stop<'t>>
    ensures reads { Gives (λ x. (x.0.now, x.1.now)) result (reading.next tokens.now) }
    ensures shorter { IfOk result (λ x. length x.1.now + 1 ≡ length tokens.now) }
{
    match tokens {
        [token, rest @ ..] => Ok((token.token(), rest)),
        [] => Err(Stop::Wrong(tokens)),
    }
}

/// Passes a token of this class, and gives it.
pub fn pass<'t>(
    tokens: &'t [Lexeme<'t>],
    class: Class,
) -> Result<(&'t Token, &'t [Lexeme<'t>]), Stop<'t>>
    ensures reads { Gives (λ x. (x.0.now, x.1.now)) result (reading.pass class tokens.now) }
    ensures class { IfOk result (λ x. class_of x.0.now.kind ≡ class) }
    ensures shorter { IfOk result (λ x. length x.1.now + 1 ≡ length tokens.now) }
{
    match tokens {
        [token, rest @ ..] if class.is(token.class()) => Ok((token.token(), rest)),
        _ => Err(Stop::Wrong(tokens)),
    }
}

/// Passes a token of this class, and gives its place.
pub fn expect<'t>(
    tokens: &'t [Lexeme<'t>],
    class: Class,
) -> Result<(Place, &'t [Lexeme<'t>]), Stop<'t>>
    ensures reads { Gives (λ x. (source_place x.0, x.1.now)) result (reading.expect class tokens.now) }
    ensures shorter { IfOk result (λ x. length x.1.now + 1 ≡ length tokens.now) }
{
    let (token, rest) = pass(tokens, class)?;
    Ok((token.place(), rest))
}

/// Passes the next token, and gives its place.
pub fn step<'t>(tokens: &'t [Lexeme<'t>]) -> Result<(Place, &'t [Lexeme<'t>]), Stop<'t>>
    ensures reads { Gives (λ x. (source_place x.0, x.1.now)) result (reading.step tokens.now) }
    ensures shorter { IfOk result (λ x. length x.1.now + 1 ≡ length tokens.now) }
{
    let (token, rest) = next(tokens)?;
    Ok((token.place(), rest))
}

/// Goes on where a level is left below something of this height.
pub fn ready<'t>(tokens: &'t [Lexeme<'t>], height: u32, levels: u32) -> Result<(), Stop<'t>>
    ensures reads { Gives (λ x. (tt, tokens.now)) result (reading.ready height levels tokens.now) }
    ensures low { IfOk result (λ x. height < levels) }
{
    if height < levels {
        Ok(())
    } else {
        Err(Stop::Deep(tokens))
    }
}

/// Passes the next token, to go one level down below something of this height.
pub fn down<'t>(
    tokens: &'t [Lexeme<'t>],
    height: u32,
    levels: u32,
) -> Result<(Place, &'t [Lexeme<'t>]), Stop<'t>>
    ensures reads { Gives (λ x. (source_place x.0, x.1.now)) result (reading.down height levels tokens.now) }
    ensures low { IfOk result (λ x. height < levels) }
    ensures shorter { IfOk result (λ x. length x.1.now + 1 ≡ length tokens.now) }
{
    ready(tokens, height, levels)?;
    let (place, rest) = step(tokens)?;
    Ok((place, rest))
}

/// Passes a name, and gives it with its place.
pub fn name<'t>(
    alloc: Global,
    tokens: &'t [Lexeme<'t>],
) -> Result<((Text, Place), &'t [Lexeme<'t>]), Stop<'t>>
    ensures reads { Gives (λ x. ((x.0.0, source_place x.0.1), x.1.now)) result (reading.name tokens.now) }
    ensures shorter { IfOk result (λ x. length x.1.now + 1 ≡ length tokens.now) }
{
    let (token, rest) = pass(tokens, Class::Name)?;
    let TokenKind::Word(name) = token.kind() else {
        unreachable!()
    };
    let name = Text::from_bytes(alloc, name.as_bytes())?;
    Ok(((name, token.place()), rest))
}

/// Passes a number, and gives its value, how it is written, and its place.
pub fn number<'t>(
    tokens: &'t [Lexeme<'t>],
) -> Result<((Vec4, NumberForm, Place), &'t [Lexeme<'t>]), Stop<'t>>
    ensures reads { Gives (λ x. (((x.0.0, x.0.1), source_place x.0.2), x.1.now)) result (reading.number tokens.now) }
    ensures shorter { IfOk result (λ x. length x.1.now + 1 ≡ length tokens.now) }
{
    let (token, rest) = pass(tokens, Class::Number)?;
    let TokenKind::Number(value, form) = token.kind() else {
        unreachable!()
    };
    Ok(((*value, *form, token.place()), rest))
}
