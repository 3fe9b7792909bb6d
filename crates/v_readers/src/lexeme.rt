// A token with its class.

ghost use Rattle.std.specs.Prelude.{◌≡◌, IfOk, map};

use crate::class::{Class, class_of};
use std::alloc::Global;
use std::marker::Model;
use v_tree::Token;
use vf_base::NoMemory;

/// A token with its class, which contracts see as the token.
#[derive(Drop)]
pub struct Lexeme<'t> {
    class: Class,
    token: &'t Token,
}

impl<'t> Model for Lexeme<'t> {
    ghost use Rattle.std.specs.Prelude.{◌≡◌};
    ghost use Rattle.v_tree.specs.Tokens.{SourceToken};
    ghost use Rattle.v_readers.specs.Classes.{class_of};

    ghost Value = { SourceToken };

    ghost view = { λ l. l.token.now };

    ghost invariant = { λ l. l.class ≡ class_of l.token.now.kind };
}

impl<'t> Lexeme<'t> {
    ghost use Rattle.v_readers.specs.Classes.{class_of};

    /// The token with its class.
    pub fn new(token: &'t Token) -> Lexeme<'t>
        ensures { result ≡ token.now }
    {
        Lexeme {
            class: class_of(token.kind()),
            token,
        }
    }

    /// What the token is, without what it carries.
    pub fn class(&self) -> Class
        ensures { result ≡ class_of self.now.kind }
    {
        self.class
    }

    /// The token.
    pub fn token(&self) -> &'t Token
        ensures { result.now ≡ self.now }
    {
        self.token
    }
}

/// The tokens with their classes.
pub fn lexemes<'t>(alloc: Global, tokens: &'t [Token]) -> Result<Vec<Lexeme<'t>>, NoMemory>
    ensures { IfOk result (λ lexemes. lexemes.items ≡ tokens.now) }
{
    let mut lexemes = Vec::with_capacity(alloc, tokens.len())?;
    for token in tokens {
        lexemes.push(Lexeme::new(token))?;
    }
    Ok(lexemes)
}
