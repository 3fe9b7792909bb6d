// Reading a whole text.

ghost use Rattle.std.specs.Prelude.{◌≡◌, ◌+◌, ◌≤◌, ◌<◌, List, [], ◌∷◌, ◌++◌, ◌^◌, ◌⊎◌, length, IfOk, IfErr, MatchResult};
ghost use Rattle.vf_base.specs.Base.{source_place};
ghost use Rattle.v_tree.specs.Trees.{SourceUnit};
ghost use Rattle.v_tree.specs.Views.{unit_of};
ghost use Rattle.v_parse.specs.Spelling.{SpellsUnit};
ghost use Rattle.v_parse.specs.Heights.{unit_height};
ghost use Rattle.v_parse.specs.Verdict.{Begins, BeginsWithin, IsFirstWrong};
ghost use Rattle.v_parse.specs.Refusals.{end_place, place_at, StatementStands, OperandStands, StopsAtLeftOut, IsFault, Decides};
ghost use Rattle.v_parse.specs.declared.fault.ParseFault.TheVariants as faults;

use crate::fault::ParseFault;
use crate::modules::unit;
use std::alloc::Global;
use v_readers::{Class, Lexeme, Stop, lexemes};
use v_tree::{Mark, Token, TokenKind, Unit};
use vf_base::{MAX_LEVELS_BELOW, NoMemory, Place, Text};

/// The place behind the last token, or the beginning of a text without tokens.
fn end_place(tokens: &[Token]) -> Place
    ensures { source_place result ≡ end_place tokens.now }
{
    match tokens {
        [.., last] => {
            let place = last.place();
            Place {
                line: place.line,
                column: place.column + 1,
            }
        }
        [] => Place { line: 1, column: 1 },
    }
}

/// The place of the first of the lexemes that are left, or that behind all tokens.
fn place_at(tokens: &[Token], rest: &[Lexeme]) -> Place
    ensures { source_place result ≡ place_at tokens.now rest.now }
{
    match rest {
        [next, ..] => next.token().place(),
        [] => end_place(tokens),
    }
}

/// Whether some unit begins with these tokens and one more.
fn goes_on(alloc: Global, front: &[Token], next: &Token) -> Result<bool, NoMemory>
    requires { BeginsWithin 255 front.now }
    ensures { IfOk result (λ goes. Decides goes (Begins (front.now ++ next.now ∷ []))) }
{
    let mut lexemes = lexemes(alloc, front)?;
    lexemes.push(Lexeme::new(next))?;
    match unit(alloc, &lexemes, MAX_LEVELS_BELOW) {
        Ok(_) => Ok(true),
        Err(Stop::Wrong(rest)) => Ok(rest.is_empty()),
        Err(Stop::Deep(_)) => Ok(true),
        Err(Stop::Memory) => Err(NoMemory),
    }
}

/// Whether a statement could stand at this place behind these tokens.
fn statement_stands(alloc: Global, front: &[Token], place: Place) -> Result<bool, NoMemory>
    requires begins { BeginsWithin 255 front.now }
    requires column { place.column + 1 < 2 ^ 32 }
    ensures { IfOk result (λ stands. Decides stands (StatementStands front.now (source_place place))) }
{
    let name = Text::from_bytes(alloc, b"$finish")?;
    let stand_in = Token::new(TokenKind::System(name), place);
    goes_on(alloc, front, &stand_in)
}

/// Whether an operand could stand at this place behind these tokens.
fn operand_stands(alloc: Global, front: &[Token], place: Place) -> Result<bool, NoMemory>
    requires begins { BeginsWithin 255 front.now }
    requires column { place.column + 1 < 2 ^ 32 }
    ensures { IfOk result (λ stands. Decides stands (OperandStands front.now (source_place place))) }
{
    let stand_in = Token::new(TokenKind::Mark(Mark::Bang), place);
    goes_on(alloc, front, &stand_in)
}

/// Whether a statement or an operand could stand at this place behind these tokens.
fn system_name_stands(alloc: Global, front: &[Token], place: Place) -> Result<bool, NoMemory>
    requires begins { BeginsWithin 255 front.now }
    requires column { place.column + 1 < 2 ^ 32 }
    ensures { IfOk result (λ stands. Decides stands (StatementStands front.now (source_place place) ⊎ OperandStands front.now (source_place place))) }
{
    if statement_stands(alloc, front, place)? {
        return Ok(true);
    }
    operand_stands(alloc, front, place)
}

/// Whether the tokens go on, behind a front that begins a unit, with something that is left out of the language.
fn stops_at_left_out(alloc: Global, front: &[Token], rest: &[Lexeme]) -> Result<bool, NoMemory>
    requires { BeginsWithin 255 front.now }
    ensures { IfOk result (λ is. Decides is (StopsAtLeftOut front.now rest.now)) }
{
    let [next, ..] = rest else {
        return Ok(false);
    };
    match next.class() {
        Class::RefusedWord => Ok(true),
        Class::SystemName => system_name_stands(alloc, front, next.token().place()),
        _ => Ok(false),
    }
}

/// The fault where no unit goes on with the lexemes that are left.
fn refusal(alloc: Global, tokens: &[Token], rest: &[Lexeme]) -> ParseFault
    requires { IsFirstWrong 255 tokens.now rest.now }
    ensures { IsFault 255 tokens.now result }
{
    let place = place_at(tokens, rest);
    let front = &tokens[..tokens.len() - rest.len()];
    match stops_at_left_out(alloc, front, rest) {
        Ok(true) => ParseFault::Unsupported(place),
        Ok(false) => ParseFault::Unexpected(place),
        Err(NoMemory) => ParseFault::NoMemory,
    }
}

/// The unit that the tokens spell, which is the only one, where it has at most 256 levels; else the first token at which the tokens stop being such
/// a unit, and why.
///
/// The outermost expression or statement of an item is level 1, so at most 255 levels stand below it.
pub fn parse(alloc: Global, tokens: &[Token]) -> Result<Unit, ParseFault>
    ensures found { IfOk result (λ unit. SpellsUnit (unit_of unit) tokens.now) }
    ensures within { IfOk result (λ unit. unit_height (unit_of unit) < 256) }
    ensures only { (u : SourceUnit) → SpellsUnit u tokens.now → unit_height u < 256 → MatchResult result (λ unit. unit_of unit ≡ u) (λ fault. fault ≡ faults.NoMemory) }
    ensures one { (one other : SourceUnit) → SpellsUnit one tokens.now → SpellsUnit other tokens.now → one ≡ other }
    ensures fault { IfErr result (IsFault 255 tokens.now) }
{
    let lexemes = lexemes(alloc, tokens)?;
    match unit(alloc, &lexemes, MAX_LEVELS_BELOW) {
        Ok((unit, _)) => Ok(unit),
        Err(Stop::Wrong(rest)) => Err(refusal(alloc, tokens, rest)),
        Err(Stop::Deep(rest)) => Err(ParseFault::TooDeep(place_at(tokens, rest))),
        Err(Stop::Memory) => Err(ParseFault::NoMemory),
    }
}
