// Reading modules and units.

ghost use Rattle.std.specs.Prelude.{◌≡◌, ◌+◌, ◌≤◌, ◌<◌, List, [], ◌∷◌, map, length, IfOk};
ghost use Rattle.v_tree.specs.Views.{item_of, module_of, unit_of};
ghost use Rattle.v_readers.specs.Given.{Gives};
ghost use Rattle.v_readers.specs.Reading.{repeat};
ghost use Rattle.v_parse.specs.Items as read;

use crate::headers::{heads, parameter_list};
use crate::items::item;
use std::alloc::Global;
use v_readers::{Class, Lexeme, Stop, expect, is_next, name};
use v_tree::{Item, Module, Unit};
use vf_base::Seq;

/// Nothing read yet, before these tokens.
fn begun<'t, T>(alloc: Global, tokens: &'t [Lexeme<'t>]) -> (Vec<T>, &'t [Lexeme<'t>])
    ensures nothing { result.0.items ≡ [] }
    ensures rest { result.1.now ≡ tokens.now }
{
    (Vec::new(alloc), tokens)
}

/// The items of a module, up to its end.
fn items<'t>(
    alloc: Global,
    tokens: &'t [Lexeme<'t>],
    levels: u32,
) -> Result<(Seq<Item>, &'t [Lexeme<'t>]), Stop<'t>>
    requires { levels < 256 }
    ensures reads { Gives (λ x. (map item_of x.0, x.1.now)) result (repeat (read.items_turn levels) [] tokens.now) }
    ensures shorter { IfOk result (λ x. length x.1.now ≤ length tokens.now) }
{
    let (mut items, mut rest) = begun(alloc, tokens);
    'items: while !is_next(rest, Class::EndModule) {
        let (next, after) = item(alloc, rest, levels)?;
        items.push(next)?;
        rest = after;
    }
    Ok((Seq::from_vec(items), rest))
}

/// A module.
#[tactic(auto, unfolding(crate::specs::Items::module_reader))]
fn module<'t>(
    alloc: Global,
    tokens: &'t [Lexeme<'t>],
    levels: u32,
) -> Result<(Module, &'t [Lexeme<'t>]), Stop<'t>>
    requires { levels < 256 }
    ensures reads { Gives (λ x. (module_of x.0, x.1.now)) result (read.module_reader levels tokens.now) }
    ensures shorter { IfOk result (λ x. length x.1.now < length tokens.now) }
{
    let (_, rest) = expect(tokens, Class::Module)?;
    let ((name, place), rest) = name(alloc, rest)?;
    let (params, rest) = parameter_list(alloc, rest, levels)?;
    let (ports, rest) = heads(alloc, rest, levels)?;
    let (_, rest) = expect(rest, Class::Semicolon)?;
    let (items, rest) = items(alloc, rest, levels)?;
    let (_, rest) = expect(rest, Class::EndModule)?;
    Ok((
        Module {
            name,
            place,
            params,
            ports,
            items,
        },
        rest,
    ))
}

/// The modules of a text, to its end.
#[tactic(auto, unfolding(crate::specs::Items::unit_reader))]
pub fn unit<'t>(
    alloc: Global,
    tokens: &'t [Lexeme<'t>],
    levels: u32,
) -> Result<(Unit, &'t [Lexeme<'t>]), Stop<'t>>
    requires { levels < 256 }
    ensures reads { Gives (λ x. (unit_of x.0, x.1.now)) result (read.unit_reader levels tokens.now) }
{
    let (mut modules, mut rest) = begun(alloc, tokens);
    'modules: while !rest.is_empty() {
        let (next, after) = module(alloc, rest, levels)?;
        modules.push(next)?;
        rest = after;
    }
    Ok((
        Unit {
            modules: Seq::from_vec(modules),
        },
        rest,
    ))
}
