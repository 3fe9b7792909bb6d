// Reading declarations.

ghost use Rattle.std.specs.Prelude.{◌≡◌, ◌+◌, ◌^◌, ◌≤◌, ◌<◌, List, [], ◌∷◌, map, length, IfOk};
ghost use Rattle.vf_base.specs.Base.{source_place};
ghost use Rattle.v_tree.specs.Views.{expression_in, name_of, range_in, parameter_of, parameters_of, ports_of, wire_of, content_of, reg_of};
ghost use Rattle.v_readers.specs.Given.{Gives};
ghost use Rattle.v_parse.specs.Items as read;
ghost use Rattle.v_parse.specs.Spelling.{parameter_word, direction_word};

use std::alloc::Global;
use v_expr::{PartReader, SeparatedReader, expression, range, with_next};
use v_readers::{Class, Lexeme, Stop, expect, name, next_class, step};
use v_tree::{Content, Direction, Expr, Name, Param, Params, Ports, Range, Reg, Wire};
use vf_base::Seq;

/// A name with its place.
#[tactic(auto, unfolding(crate::specs::Items::named))]
pub fn named<'t>(
    alloc: Global,
    tokens: &'t [Lexeme<'t>],
) -> Result<(Name, &'t [Lexeme<'t>]), Stop<'t>>
    ensures reads { Gives (λ x. (name_of x.0, x.1.now)) result (read.named tokens.now) }
    ensures shorter { IfOk result (λ x. length x.1.now < length tokens.now) }
{
    let ((name, place), rest) = name(alloc, tokens)?;
    Ok((Name { name, place }, rest))
}

/// Whether the word `signed` stands here.
#[tactic(auto, unfolding(crate::specs::Items::signed))]
pub fn signed<'t>(tokens: &'t [Lexeme<'t>]) -> Result<(bool, &'t [Lexeme<'t>]), Stop<'t>>
    ensures reads { Gives (λ x. (x.0, x.1.now)) result (read.signed tokens.now) }
    ensures shorter { IfOk result (λ x. length x.1.now ≤ length tokens.now) }
{
    match next_class(tokens) {
        Some(Class::Signed) => {
            let (_, rest) = step(tokens)?;
            Ok((true, rest))
        }
        _ => Ok((false, tokens)),
    }
}

/// A range, if there is one.
#[tactic(auto, unfolding(crate::specs::Items::width))]
pub fn width<'t>(
    alloc: Global,
    tokens: &'t [Lexeme<'t>],
    levels: u32,
) -> Result<(Option<Range>, &'t [Lexeme<'t>]), Stop<'t>>
    requires { levels < 256 }
    ensures reads { Gives (λ x. (range_in x.0, x.1.now)) result (read.width levels tokens.now) }
    ensures shorter { IfOk result (λ x. length x.1.now ≤ length tokens.now) }
{
    match next_class(tokens) {
        Some(Class::LeftBracket) => {
            let (range, rest) = range(alloc, tokens, levels)?;
            Ok((Some(range), rest))
        }
        _ => Ok((None, tokens)),
    }
}

/// A value behind its sign, if there is one.
#[tactic(auto, unfolding(crate::specs::Items::value))]
pub fn value<'t>(
    alloc: Global,
    tokens: &'t [Lexeme<'t>],
    levels: u32,
) -> Result<(Option<Expr>, &'t [Lexeme<'t>]), Stop<'t>>
    requires { levels < 256 }
    ensures reads { Gives (λ x. (expression_in x.0, x.1.now)) result (read.value levels tokens.now) }
    ensures shorter { IfOk result (λ x. length x.1.now ≤ length tokens.now) }
{
    match next_class(tokens) {
        Some(Class::Assign) => {
            let (_, rest) = step(tokens)?;
            let (value, rest) = expression(alloc, rest, levels)?;
            Ok((Some(value), rest))
        }
        _ => Ok((None, tokens)),
    }
}

/// A parameter with its value.
#[tactic(auto, unfolding(crate::specs::Items::parameter))]
pub fn parameter<'t>(
    alloc: Global,
    tokens: &'t [Lexeme<'t>],
    levels: u32,
) -> Result<(Param, &'t [Lexeme<'t>]), Stop<'t>>
    requires { levels < 256 }
    ensures reads { Gives (λ x. (parameter_of x.0, x.1.now)) result (read.parameter levels tokens.now) }
    ensures shorter { IfOk result (λ x. length x.1.now < length tokens.now) }
{
    let ((name, place), rest) = name(alloc, tokens)?;
    let (_, rest) = expect(rest, Class::Assign)?;
    let (value, rest) = expression(alloc, rest, levels)?;
    Ok((Param { name, place, value }, rest))
}

/// Whether ports are variables.
#[tactic(auto, unfolding(crate::specs::Items::sort))]
pub fn sort<'t>(
    tokens: &'t [Lexeme<'t>],
    direction: Direction,
) -> Result<(bool, &'t [Lexeme<'t>]), Stop<'t>>
    ensures reads { Gives (λ x. (x.0, x.1.now)) result (read.sort direction tokens.now) }
    ensures shorter { IfOk result (λ x. length x.1.now ≤ length tokens.now) }
{
    match (direction, next_class(tokens)) {
        (_, Some(Class::Wire)) => {
            let (_, rest) = step(tokens)?;
            Ok((false, rest))
        }
        (Direction::Output, Some(Class::Reg)) => {
            let (_, rest) = step(tokens)?;
            Ok((true, rest))
        }
        _ => Ok((false, tokens)),
    }
}

/// A net, with the value that it is assigned where it is declared.
#[tactic(auto, unfolding(crate::specs::Items::wire))]
pub fn wire<'t>(
    alloc: Global,
    tokens: &'t [Lexeme<'t>],
    levels: u32,
) -> Result<(Wire, &'t [Lexeme<'t>]), Stop<'t>>
    requires { levels < 256 }
    ensures reads { Gives (λ x. (wire_of x.0, x.1.now)) result (read.wire levels tokens.now) }
    ensures shorter { IfOk result (λ x. length x.1.now < length tokens.now) }
{
    let ((name, place), rest) = name(alloc, tokens)?;
    let (value, rest) = value(alloc, rest, levels)?;
    Ok((Wire { name, place, value }, rest))
}

/// What stands behind the name of a variable.
#[tactic(auto, unfolding(crate::specs::Items::content))]
pub fn content<'t>(
    alloc: Global,
    tokens: &'t [Lexeme<'t>],
    levels: u32,
) -> Result<(Content, &'t [Lexeme<'t>]), Stop<'t>>
    requires { levels < 256 }
    ensures reads { Gives (λ x. (content_of x.0, x.1.now)) result (read.content levels tokens.now) }
    ensures shorter { IfOk result (λ x. length x.1.now ≤ length tokens.now) }
{
    match next_class(tokens) {
        Some(Class::Assign) => {
            let (_, rest) = step(tokens)?;
            let (first, rest) = expression(alloc, rest, levels)?;
            Ok((Content::First(first), rest))
        }
        Some(Class::LeftBracket) => {
            let (bounds, rest) = range(alloc, tokens, levels)?;
            Ok((Content::Memory(bounds), rest))
        }
        _ => Ok((Content::Nothing, tokens)),
    }
}

/// A variable with what stands behind its name.
#[tactic(auto, unfolding(crate::specs::Items::reg))]
pub fn reg<'t>(
    alloc: Global,
    tokens: &'t [Lexeme<'t>],
    levels: u32,
) -> Result<(Reg, &'t [Lexeme<'t>]), Stop<'t>>
    requires { levels < 256 }
    ensures reads { Gives (λ x. (reg_of x.0, x.1.now)) result (read.reg levels tokens.now) }
    ensures shorter { IfOk result (λ x. length x.1.now < length tokens.now) }
{
    let ((name, place), rest) = name(alloc, tokens)?;
    let (content, rest) = content(alloc, rest, levels)?;
    Ok((
        Reg {
            name,
            place,
            content,
        },
        rest,
    ))
}

/// Reads names.
#[derive(Drop)]
pub struct NameReader;

impl PartReader for NameReader {
    ghost use Rattle.v_tree.specs.Trees.{NamedPlace};
    ghost use Rattle.v_tree.specs.Views.{name_of};
    ghost use Rattle.v_parse.specs.Items.{named};

    type Part = Name;

    ghost Tree = { NamedPlace };

    ghost tree_of = { name_of };

    ghost reader = { λ it. named };

    ghost can_read = { λ it. Unit {0} };

    fn read<'t>(
        &self,
        alloc: Global,
        tokens: &'t [Lexeme<'t>],
    ) -> Result<(Name, &'t [Lexeme<'t>]), Stop<'t>> {
        named(alloc, tokens)
    }
}

/// Reads parameters with their values.
#[derive(Drop)]
pub struct ParameterReader {
    pub levels: u32,
}

impl PartReader for ParameterReader {
    ghost use Rattle.std.specs.Prelude.{◌<◌};
    ghost use Rattle.v_tree.specs.Trees.{SourceParameter};
    ghost use Rattle.v_tree.specs.Views.{parameter_of};
    ghost use Rattle.v_parse.specs.Items.{parameter};

    type Part = Param;

    ghost Tree = { SourceParameter };

    ghost tree_of = { parameter_of };

    ghost reader = { λ it. parameter it.levels };

    ghost can_read = { λ it. it.levels < 256 };

    fn read<'t>(
        &self,
        alloc: Global,
        tokens: &'t [Lexeme<'t>],
    ) -> Result<(Param, &'t [Lexeme<'t>]), Stop<'t>> {
        parameter(alloc, tokens, self.levels)
    }
}

/// Reads nets.
#[derive(Drop)]
pub struct WireReader {
    pub levels: u32,
}

impl PartReader for WireReader {
    ghost use Rattle.std.specs.Prelude.{◌<◌};
    ghost use Rattle.v_tree.specs.Trees.{SourceWire};
    ghost use Rattle.v_tree.specs.Views.{wire_of};
    ghost use Rattle.v_parse.specs.Items.{wire};

    type Part = Wire;

    ghost Tree = { SourceWire };

    ghost tree_of = { wire_of };

    ghost reader = { λ it. wire it.levels };

    ghost can_read = { λ it. it.levels < 256 };

    fn read<'t>(
        &self,
        alloc: Global,
        tokens: &'t [Lexeme<'t>],
    ) -> Result<(Wire, &'t [Lexeme<'t>]), Stop<'t>> {
        wire(alloc, tokens, self.levels)
    }
}

/// Reads variables.
#[derive(Drop)]
pub struct RegReader {
    pub levels: u32,
}

impl PartReader for RegReader {
    ghost use Rattle.std.specs.Prelude.{◌<◌};
    ghost use Rattle.v_tree.specs.Trees.{SourceReg};
    ghost use Rattle.v_tree.specs.Views.{reg_of};
    ghost use Rattle.v_parse.specs.Items.{reg};

    type Part = Reg;

    ghost Tree = { SourceReg };

    ghost tree_of = { reg_of };

    ghost reader = { λ it. reg it.levels };

    ghost can_read = { λ it. it.levels < 256 };

    fn read<'t>(
        &self,
        alloc: Global,
        tokens: &'t [Lexeme<'t>],
    ) -> Result<(Reg, &'t [Lexeme<'t>]), Stop<'t>> {
        reg(alloc, tokens, self.levels)
    }
}

/// The word before parameters.
fn parameter_word(is_local: bool) -> Class
    ensures { result ≡ parameter_word is_local }
{
    if is_local {
        Class::LocalParameter
    } else {
        Class::Parameter
    }
}

/// The word of a direction.
fn direction_word(direction: Direction) -> Class
    ensures { result ≡ direction_word direction }
{
    match direction {
        Direction::Input => Class::Input,
        Direction::Output => Class::Output,
    }
}

/// Parameters behind their word.
#[tactic(auto, unfolding(crate::specs::Items::parameters))]
pub fn parameters<'t>(
    alloc: Global,
    tokens: &'t [Lexeme<'t>],
    is_local: bool,
    levels: u32,
) -> Result<(Params, &'t [Lexeme<'t>]), Stop<'t>>
    requires { levels < 256 }
    ensures reads { Gives (λ x. (parameters_of x.0, x.1.now)) result (read.parameters levels is_local tokens.now) }
    ensures shorter { IfOk result (λ x. length x.1.now < length tokens.now) }
{
    let (place, rest) = expect(tokens, parameter_word(is_local))?;
    let (signed, rest) = signed(rest)?;
    let (range, rest) = width(alloc, rest, levels)?;
    let parameters = SeparatedReader {
        part: ParameterReader { levels },
    };
    let (range, params, rest) = with_next(range, alloc, rest, &parameters)?;
    Ok((
        Params {
            place,
            is_local,
            signed,
            range,
            params,
        },
        rest,
    ))
}

/// Ports before their names.
#[tactic(auto, unfolding(crate::specs::Items::ports_head))]
pub fn ports_head<'t>(
    alloc: Global,
    tokens: &'t [Lexeme<'t>],
    direction: Direction,
    levels: u32,
) -> Result<(Ports, &'t [Lexeme<'t>]), Stop<'t>>
    requires { levels < 256 }
    ensures reads { Gives (λ x. (ports_of x.0, x.1.now)) result (read.ports_head levels direction tokens.now) }
    ensures shorter { IfOk result (λ x. length x.1.now < length tokens.now) }
{
    let (place, rest) = expect(tokens, direction_word(direction))?;
    let (is_reg, rest) = sort(rest, direction)?;
    let (signed, rest) = signed(rest)?;
    let (range, rest) = width(alloc, rest, levels)?;
    Ok((
        Ports {
            place,
            direction,
            is_reg,
            signed,
            range,
            names: Seq::from_vec(Vec::new(alloc)),
        },
        rest,
    ))
}

/// Ports with these names.
pub fn with_names(head: Ports, names: Seq<Name>) -> Ports
    ensures { ports_of result ≡ read.with_names (ports_of head) (map name_of names) }
{
    let Ports {
        place,
        direction,
        is_reg,
        signed,
        range,
        names: _,
    } = head;
    Ports {
        place,
        direction,
        is_reg,
        signed,
        range,
        names,
    }
}

/// Ports with their names.
#[tactic(auto, unfolding(crate::specs::Items::ports))]
pub fn ports<'t>(
    alloc: Global,
    tokens: &'t [Lexeme<'t>],
    direction: Direction,
    levels: u32,
) -> Result<(Ports, &'t [Lexeme<'t>]), Stop<'t>>
    requires { levels < 256 }
    ensures reads { Gives (λ x. (ports_of x.0, x.1.now)) result (read.ports levels direction tokens.now) }
    ensures shorter { IfOk result (λ x. length x.1.now < length tokens.now) }
{
    let (head, rest) = ports_head(alloc, tokens, direction, levels)?;
    let (head, names, rest) = with_next(head, alloc, rest, &SeparatedReader { part: NameReader })?;
    Ok((with_names(head, names), rest))
}
