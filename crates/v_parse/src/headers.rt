// Reading the parameters and the ports in the header of a module.

ghost use Rattle.std.specs.Prelude.{◌≡◌, ◌+◌, ◌≤◌, ◌<◌, Some, List, [], ◌∷◌, ◌++◌, map, length, IfOk};
ghost use Rattle.v_tree.specs.Views.{name_of, parameter_of, parameters_of, ports_of, heads_of};
ghost use Rattle.v_readers.specs.Given.{Gives};
ghost use Rattle.v_readers.specs.Reading.{by_class};
ghost use Rattle.v_parse.specs.Items as read;
ghost use Rattle.v_parse.specs.Rows as rows;

use crate::declarations::{NameReader, ParameterReader, ports_head, signed, width, with_names};
use std::alloc::Global;
use v_expr::{PartReader, closed, separated, with_next};
use v_readers::{Class, Lexeme, Stop, expect, is_next, next_class, step};
use v_tree::{Direction, Heads, Name, Param, Params, Ports};
use vf_base::{NoMemory, Seq};

/// Groups in a row, with the last one apart, to which more may be added.
#[derive(Drop)]
struct Row<T> {
    before: Vec<T>,
    last: T,
}

/// A list of one element.
pub fn alone<T: Drop>(alloc: Global, element: T) -> Result<Seq<T>, NoMemory>
    ensures { IfOk result (λ list. list ≡ element ∷ []) }
{
    let mut elements = Vec::new(alloc);
    elements.push(element)?;
    Ok(Seq::from_vec(elements))
}

/// The first parameter of a group, with what stands before it.
#[tactic(auto, unfolding(crate::specs::Items::group))]
fn group<'t>(
    alloc: Global,
    tokens: &'t [Lexeme<'t>],
    levels: u32,
) -> Result<(Params, &'t [Lexeme<'t>]), Stop<'t>>
    requires { levels < 256 }
    ensures reads { Gives (λ x. (parameters_of x.0, x.1.now)) result (read.group levels tokens.now) }
    ensures shorter { IfOk result (λ x. length x.1.now < length tokens.now) }
{
    let (place, rest) = expect(tokens, Class::Parameter)?;
    let (signed, rest) = signed(rest)?;
    let (range, rest) = width(alloc, rest, levels)?;
    let (range, parameter, rest) = with_next(range, alloc, rest, &ParameterReader { levels })?;
    let params = alone(alloc, parameter)?;
    Ok((
        Params {
            place,
            is_local: false,
            signed,
            range,
            params,
        },
        rest,
    ))
}

/// A group with one more parameter.
fn with_parameter(group: Params, parameter: Param) -> Result<Params, NoMemory>
    ensures { IfOk result (λ group_then. parameters_of group_then ≡ read.add_parameter (parameters_of group) (parameter_of parameter)) }
{
    let Params {
        place,
        is_local,
        signed,
        range,
        params,
    } = group;
    let mut params = params.into_vec();
    params.push(parameter)?;
    Ok(Params {
        place,
        is_local,
        signed,
        range,
        params: Seq::from_vec(params),
    })
}

/// Reads the first parameter of a group, with what stands before it.
#[derive(Drop)]
struct GroupReader {
    pub levels: u32,
}

impl PartReader for GroupReader {
    ghost use Rattle.std.specs.Prelude.{◌<◌};
    ghost use Rattle.v_tree.specs.Trees.{SourceParameters};
    ghost use Rattle.v_tree.specs.Views.{parameters_of};
    ghost use Rattle.v_parse.specs.Items.{group};

    type Part = Params;

    ghost Tree = { SourceParameters };

    ghost tree_of = { parameters_of };

    ghost reader = { λ it. group it.levels };

    ghost can_read = { λ it. it.levels < 256 };

    fn read<'t>(
        &self,
        alloc: Global,
        tokens: &'t [Lexeme<'t>],
    ) -> Result<(Params, &'t [Lexeme<'t>]), Stop<'t>> {
        group(alloc, tokens, self.levels)
    }
}

/// The groups with another one behind them.
fn with_another<T: Drop>(row: Row<T>, next: T) -> Result<Row<T>, NoMemory>
    ensures before { IfOk result (λ row_then. row_then.before.items ≡ row.before.items ++ row.last ∷ []) }
    ensures last { IfOk result (λ row_then. row_then.last ≡ next) }
{
    let Row { mut before, last } = row;
    before.push(last)?;
    Ok(Row { before, last: next })
}

/// Behind a comma, a new group or one more parameter of the last one.
#[tactic(auto, using(crate::proofs::Turns::added))]
fn next_group<'t>(
    alloc: Global,
    tokens: &'t [Lexeme<'t>],
    row: Row<Params>,
    levels: u32,
) -> Result<(Row<Params>, &'t [Lexeme<'t>]), Stop<'t>>
    requires { levels < 256 }
    ensures reads { Gives (λ x. (Some (map parameters_of x.0.before.items ++ parameters_of x.0.last ∷ []), x.1.now)) result (by_class (read.group_by levels
        (map parameters_of row.before.items ++ parameters_of row.last ∷ [])) tokens.now) }
    ensures shorter { IfOk result (λ x. length x.1.now ≤ length tokens.now) }
{
    match next_class(tokens) {
        Some(Class::Parameter) => {
            let (row, next, rest) = with_next(row, alloc, tokens, &GroupReader { levels })?;
            Ok((with_another(row, next)?, rest))
        }
        _ => {
            let (row, parameter, rest) = with_next(
                row,
                alloc,
                tokens,
                &ParameterReader { levels },
            )?;
            let Row { before, last } = row;
            let last = with_parameter(last, parameter)?;
            Ok((Row { before, last }, rest))
        }
    }
}

/// The groups of a parameter list.
#[tactic(auto, unfolding(crate::specs::Items::groups))]
fn groups<'t>(
    alloc: Global,
    tokens: &'t [Lexeme<'t>],
    levels: u32,
) -> Result<(Seq<Params>, &'t [Lexeme<'t>]), Stop<'t>>
    requires { levels < 256 }
    ensures reads { Gives (λ x. (map parameters_of x.0, x.1.now)) result (read.groups levels tokens.now) }
    ensures shorter { IfOk result (λ x. length x.1.now < length tokens.now) }
{
    let (first, mut rest) = group(alloc, tokens, levels)?;
    let mut row = Row {
        before: Vec::new(alloc),
        last: first,
    };
    'groups: while is_next(rest, Class::Comma) {
        let (_, after) = step(rest)?;
        (row, rest) = next_group(alloc, after, row, levels)?;
    }
    let Row { before, last } = row;
    let mut groups = before;
    groups.push(last)?;
    Ok((Seq::from_vec(groups), rest))
}

/// The parameter list of a module, if there is one.
#[tactic(auto, unfolding(crate::specs::Items::parameter_list))]
pub fn parameter_list<'t>(
    alloc: Global,
    tokens: &'t [Lexeme<'t>],
    levels: u32,
) -> Result<(Seq<Params>, &'t [Lexeme<'t>]), Stop<'t>>
    requires { levels < 256 }
    ensures reads { Gives (λ x. (map parameters_of x.0, x.1.now)) result (read.parameter_list levels tokens.now) }
    ensures shorter { IfOk result (λ x. length x.1.now ≤ length tokens.now) }
{
    match next_class(tokens) {
        Some(Class::Hash) => {
            let (_, rest) = step(tokens)?;
            let (_, rest) = expect(rest, Class::LeftParen)?;
            let (groups, rest) = groups(alloc, rest, levels)?;
            let (groups, _, rest) = closed(groups, rest, Class::RightParen)?;
            Ok((groups, rest))
        }
        _ => Ok((Seq::from_vec(Vec::new(alloc)), tokens)),
    }
}

/// The first port of a group, with what stands before it.
#[tactic(auto, unfolding(crate::specs::Items::port))]
fn port<'t>(
    alloc: Global,
    tokens: &'t [Lexeme<'t>],
    direction: Direction,
    levels: u32,
) -> Result<(Ports, &'t [Lexeme<'t>]), Stop<'t>>
    requires { levels < 256 }
    ensures reads { Gives (λ x. (ports_of x.0, x.1.now)) result (read.port levels direction tokens.now) }
    ensures shorter { IfOk result (λ x. length x.1.now < length tokens.now) }
{
    let (head, rest) = ports_head(alloc, tokens, direction, levels)?;
    let (head, name, rest) = with_next(head, alloc, rest, &NameReader)?;
    let names = alone(alloc, name)?;
    Ok((with_names(head, names), rest))
}

/// A group with one more port.
fn with_name(group: Ports, name: Name) -> Result<Ports, NoMemory>
    ensures { IfOk result (λ group_then. ports_of group_then ≡ read.add_name (ports_of group) (name_of name)) }
{
    let Ports {
        place,
        direction,
        is_reg,
        signed,
        range,
        names,
    } = group;
    let mut names = names.into_vec();
    names.push(name)?;
    Ok(Ports {
        place,
        direction,
        is_reg,
        signed,
        range,
        names: Seq::from_vec(names),
    })
}

/// Reads the first port of a group in this direction, with what stands before it.
#[derive(Drop)]
struct PortReader {
    pub direction: Direction,
    pub levels: u32,
}

impl PartReader for PortReader {
    ghost use Rattle.std.specs.Prelude.{◌<◌};
    ghost use Rattle.v_tree.specs.Trees.{SourcePorts};
    ghost use Rattle.v_tree.specs.Views.{ports_of};
    ghost use Rattle.v_parse.specs.Items.{port};

    type Part = Ports;

    ghost Tree = { SourcePorts };

    ghost tree_of = { ports_of };

    ghost reader = { λ it. port it.levels it.direction };

    ghost can_read = { λ it. it.levels < 256 };

    fn read<'t>(
        &self,
        alloc: Global,
        tokens: &'t [Lexeme<'t>],
    ) -> Result<(Ports, &'t [Lexeme<'t>]), Stop<'t>> {
        port(alloc, tokens, self.direction, self.levels)
    }
}

/// A new group of ports behind the others.
fn another_port<'t>(
    alloc: Global,
    tokens: &'t [Lexeme<'t>],
    row: Row<Ports>,
    direction: Direction,
    levels: u32,
) -> Result<(Row<Ports>, &'t [Lexeme<'t>]), Stop<'t>>
    requires { levels < 256 }
    ensures reads { Gives (λ x. (Some (map ports_of x.0.before.items ++ ports_of x.0.last ∷ []), x.1.now)) result (read.another_port levels
        (map ports_of row.before.items ++ ports_of row.last ∷ []) direction tokens.now) }
    ensures shorter { IfOk result (λ x. length x.1.now ≤ length tokens.now) }
{
    let (row, next, rest) = with_next(row, alloc, tokens, &PortReader { direction, levels })?;
    Ok((with_another(row, next)?, rest))
}

/// Behind a comma, a new group or one more port of the last one.
#[tactic(auto, using(crate::proofs::Turns::added))]
fn next_port<'t>(
    alloc: Global,
    tokens: &'t [Lexeme<'t>],
    row: Row<Ports>,
    levels: u32,
) -> Result<(Row<Ports>, &'t [Lexeme<'t>]), Stop<'t>>
    requires { levels < 256 }
    ensures reads { Gives (λ x. (Some (map ports_of x.0.before.items ++ ports_of x.0.last ∷ []), x.1.now)) result (by_class (read.port_by levels
        (map ports_of row.before.items ++ ports_of row.last ∷ [])) tokens.now) }
    ensures shorter { IfOk result (λ x. length x.1.now ≤ length tokens.now) }
{
    match next_class(tokens) {
        Some(Class::Input) => another_port(alloc, tokens, row, Direction::Input, levels),
        Some(Class::Output) => another_port(alloc, tokens, row, Direction::Output, levels),
        _ => {
            let (row, name, rest) = with_next(row, alloc, tokens, &NameReader)?;
            let Row { before, last } = row;
            let last = with_name(last, name)?;
            Ok((Row { before, last }, rest))
        }
    }
}

/// The groups of declared ports.
#[tactic(auto, unfolding(crate::specs::Rows::port_groups))]
fn port_groups<'t>(
    alloc: Global,
    tokens: &'t [Lexeme<'t>],
    direction: Direction,
    levels: u32,
) -> Result<(Seq<Ports>, &'t [Lexeme<'t>]), Stop<'t>>
    requires { levels < 256 }
    ensures reads { Gives (λ x. (map ports_of x.0, x.1.now)) result (rows.port_groups levels direction tokens.now) }
    ensures shorter { IfOk result (λ x. length x.1.now < length tokens.now) }
{
    let (first, mut rest) = port(alloc, tokens, direction, levels)?;
    let mut row = Row {
        before: Vec::new(alloc),
        last: first,
    };
    'groups: while is_next(rest, Class::Comma) {
        let (_, after) = step(rest)?;
        (row, rest) = next_port(alloc, after, row, levels)?;
    }
    let Row { before, last } = row;
    let mut groups = before;
    groups.push(last)?;
    Ok((Seq::from_vec(groups), rest))
}

/// The declared ports of a module, to the closing parenthesis.
#[tactic(auto, using(crate::proofs::Turns::declared_ports_are))]
fn declared_ports<'t>(
    alloc: Global,
    tokens: &'t [Lexeme<'t>],
    direction: Direction,
    levels: u32,
) -> Result<(Heads, &'t [Lexeme<'t>]), Stop<'t>>
    requires { levels < 256 }
    ensures reads { Gives (λ x. (heads_of x.0, x.1.now)) result (read.declared_ports levels direction tokens.now) }
    ensures shorter { IfOk result (λ x. length x.1.now < length tokens.now) }
{
    let (groups, rest) = port_groups(alloc, tokens, direction, levels)?;
    let (groups, _, rest) = closed(groups, rest, Class::RightParen)?;
    Ok((Heads::Declared(groups), rest))
}

/// What stands behind the opening parenthesis of a list of ports.
fn heads_inside<'t>(
    alloc: Global,
    tokens: &'t [Lexeme<'t>],
    levels: u32,
) -> Result<(Heads, &'t [Lexeme<'t>]), Stop<'t>>
    requires { levels < 256 }
    ensures reads { Gives (λ x. (heads_of x.0, x.1.now)) result (by_class (read.heads_inside levels) tokens.now) }
    ensures shorter { IfOk result (λ x. length x.1.now < length tokens.now) }
{
    match next_class(tokens) {
        Some(Class::RightParen) => {
            let (_, rest) = step(tokens)?;
            Ok((Heads::Plain(Seq::from_vec(Vec::new(alloc))), rest))
        }
        Some(Class::Name) => {
            let (names, rest) = separated(alloc, tokens, &NameReader)?;
            let (names, _, rest) = closed(names, rest, Class::RightParen)?;
            Ok((Heads::Plain(names), rest))
        }
        Some(Class::Input) => declared_ports(alloc, tokens, Direction::Input, levels),
        Some(Class::Output) => declared_ports(alloc, tokens, Direction::Output, levels),
        _ => Err(Stop::Wrong(tokens)),
    }
}

/// The list of ports of a module, if there is one.
#[tactic(auto, unfolding(crate::specs::Items::heads))]
pub fn heads<'t>(
    alloc: Global,
    tokens: &'t [Lexeme<'t>],
    levels: u32,
) -> Result<(Heads, &'t [Lexeme<'t>]), Stop<'t>>
    requires { levels < 256 }
    ensures reads { Gives (λ x. (heads_of x.0, x.1.now)) result (read.heads levels tokens.now) }
    ensures shorter { IfOk result (λ x. length x.1.now ≤ length tokens.now) }
{
    match next_class(tokens) {
        Some(Class::LeftParen) => {
            let (_, rest) = step(tokens)?;
            heads_inside(alloc, rest, levels)
        }
        _ => Ok((Heads::Plain(Seq::from_vec(Vec::new(alloc))), tokens)),
    }
}
