// Reading connections and instances.

ghost use Rattle.std.specs.Prelude.{◌≡◌, ◌+◌, ◌≤◌, ◌<◌, Some, None, List, [], ◌∷◌, map, length, IfOk};
ghost use Rattle.vf_base.specs.Base.{source_place};
ghost use Rattle.v_tree.specs.Trees.{place_of_expression};
ghost use Rattle.v_tree.specs.Views.{expression_of, expression_in, connection_of, instance_of};
ghost use Rattle.v_readers.specs.Given.{Gives};
ghost use Rattle.v_readers.specs.Reading.{by_class};
ghost use Rattle.v_parse.specs.Items as read;
ghost use Rattle.v_parse.specs.Rows as rows;

use std::alloc::Global;
use v_expr::{PartReader, closed, expression, separated};
use v_readers::{Class, Lexeme, Stop, expect, is_next, name, next_class, step};
use v_tree::{Connection, Expr, Instance};
use vf_base::{Place, Seq};

/// The place of an expression.
fn place_of(expr: &Expr) -> Place
    ensures { source_place result ≡ place_of_expression (expression_of expr.now) }
{
    match expr {
        Expr::Number { place, .. } => *place,
        Expr::Name { place, .. } => *place,
        Expr::BitSelect { place, .. } => *place,
        Expr::PartSelect { place, .. } => *place,
        Expr::Paren { place, .. } => *place,
        Expr::Unary { place, .. } => *place,
        Expr::Binary { place, .. } => *place,
        Expr::Conditional { place, .. } => *place,
        Expr::Concat { place, .. } => *place,
        Expr::Repeat { place, .. } => *place,
    }
}

/// What a parameter is given.
#[tactic(auto, unfolding(crate::specs::Items::some_actual))]
fn some_actual<'t>(
    alloc: Global,
    tokens: &'t [Lexeme<'t>],
    levels: u32,
) -> Result<(Option<Expr>, &'t [Lexeme<'t>]), Stop<'t>>
    requires { levels < 256 }
    ensures reads { Gives (λ x. (expression_in x.0, x.1.now)) result (read.some_actual levels tokens.now) }
    ensures shorter { IfOk result (λ x. length x.1.now ≤ length tokens.now) }
{
    let (actual, rest) = expression(alloc, tokens, levels)?;
    Ok((Some(actual), rest))
}

/// What is connected by name, if anything is.
#[tactic(auto, unfolding(crate::specs::Items::actual, crate::specs::Items::some_actual))]
fn actual<'t>(
    alloc: Global,
    tokens: &'t [Lexeme<'t>],
    levels: u32,
) -> Result<(Option<Expr>, &'t [Lexeme<'t>]), Stop<'t>>
    requires { levels < 256 }
    ensures reads { Gives (λ x. (expression_in x.0, x.1.now)) result (read.actual levels tokens.now) }
    ensures shorter { IfOk result (λ x. length x.1.now ≤ length tokens.now) }
{
    match next_class(tokens) {
        Some(Class::RightParen) => Ok((None, tokens)),
        _ => some_actual(alloc, tokens, levels),
    }
}

/// What is connected by name, which has to be there where parameters are given.
fn connected<'t>(
    alloc: Global,
    tokens: &'t [Lexeme<'t>],
    is_given: bool,
    levels: u32,
) -> Result<(Option<Expr>, &'t [Lexeme<'t>]), Stop<'t>>
    requires { levels < 256 }
    ensures reads { Gives (λ x. (expression_in x.0, x.1.now)) result (rows.connected levels is_given tokens.now) }
    ensures shorter { IfOk result (λ x. length x.1.now ≤ length tokens.now) }
{
    if is_given {
        some_actual(alloc, tokens, levels)
    } else {
        actual(alloc, tokens, levels)
    }
}

/// A connection by name.
#[tactic(auto, unfolding(crate::specs::Items::connection))]
fn connection<'t>(
    alloc: Global,
    tokens: &'t [Lexeme<'t>],
    is_given: bool,
    levels: u32,
) -> Result<(Connection, &'t [Lexeme<'t>]), Stop<'t>>
    requires { levels < 256 }
    ensures reads { Gives (λ x. (connection_of x.0, x.1.now)) result (read.connection (rows.connected levels is_given) tokens.now) }
    ensures shorter { IfOk result (λ x. length x.1.now < length tokens.now) }
{
    let (_, rest) = expect(tokens, Class::Dot)?;
    let ((name, place), rest) = name(alloc, rest)?;
    let (_, rest) = expect(rest, Class::LeftParen)?;
    let (actual, rest) = connected(alloc, rest, is_given, levels)?;
    let (actual, _, rest) = closed(actual, rest, Class::RightParen)?;
    Ok((
        Connection {
            name: Some(name),
            place,
            actual,
        },
        rest,
    ))
}

/// Reads connections by name, where parameters are given or ports are connected.
#[derive(Drop)]
struct ConnectionReader {
    pub is_given: bool,
    pub levels: u32,
}

impl PartReader for ConnectionReader {
    ghost use Rattle.std.specs.Prelude.{◌<◌};
    ghost use Rattle.v_tree.specs.Trees.{SourceConnection};
    ghost use Rattle.v_tree.specs.Views.{connection_of};
    ghost use Rattle.v_parse.specs.Items.{connection};
    ghost use Rattle.v_parse.specs.Rows.{connected};

    type Part = Connection;

    ghost Tree = { SourceConnection };

    ghost tree_of = { connection_of };

    ghost reader = { λ it. connection (connected it.levels it.is_given) };

    ghost can_read = { λ it. it.levels < 256 };

    fn read<'t>(
        &self,
        alloc: Global,
        tokens: &'t [Lexeme<'t>],
    ) -> Result<(Connection, &'t [Lexeme<'t>]), Stop<'t>> {
        connection(alloc, tokens, self.is_given, self.levels)
    }
}

/// Connections by name, to the closing parenthesis.
#[tactic(auto, unfolding(crate::specs::Items::named_connections))]
fn named_connections<'t>(
    alloc: Global,
    tokens: &'t [Lexeme<'t>],
    is_given: bool,
    levels: u32,
) -> Result<(Seq<Connection>, &'t [Lexeme<'t>]), Stop<'t>>
    requires { levels < 256 }
    ensures reads { Gives (λ x. (map connection_of x.0, x.1.now)) result (read.named_connections (rows.connected levels is_given) tokens.now) }
    ensures shorter { IfOk result (λ x. length x.1.now < length tokens.now) }
{
    let (connections, rest) = separated(alloc, tokens, &ConnectionReader { is_given, levels })?;
    let (connections, _, rest) = closed(connections, rest, Class::RightParen)?;
    Ok((connections, rest))
}

/// A connection by position that ends at this place.
fn placed(next_place: Place, actual: Option<Expr>) -> Connection
    ensures { connection_of result ≡ read.placed (source_place next_place) (expression_in actual) }
{
    let place = match &actual {
        Some(expr) => place_of(expr),
        None => next_place,
    };
    Connection {
        name: None,
        place,
        actual,
    }
}

/// What is connected first by position, if anything is.
#[tactic(auto, unfolding(crate::specs::Rows::first_position))]
fn first_position<'t>(
    alloc: Global,
    tokens: &'t [Lexeme<'t>],
    levels: u32,
) -> Result<(Option<Expr>, &'t [Lexeme<'t>]), Stop<'t>>
    requires { levels < 256 }
    ensures reads { Gives (λ x. (expression_in x.0, x.1.now)) result (rows.first_position levels tokens.now) }
    ensures shorter { IfOk result (λ x. length x.1.now ≤ length tokens.now) }
{
    match next_class(tokens) {
        Some(Class::Comma) => Ok((None, tokens)),
        _ => some_actual(alloc, tokens, levels),
    }
}

/// What is connected by position behind a comma, if anything is.
#[tactic(auto, unfolding(crate::specs::Rows::position))]
fn position<'t>(
    alloc: Global,
    tokens: &'t [Lexeme<'t>],
    levels: u32,
) -> Result<(Option<Expr>, &'t [Lexeme<'t>]), Stop<'t>>
    requires { levels < 256 }
    ensures reads { Gives (λ x. (expression_in x.0, x.1.now)) result (rows.position levels tokens.now) }
    ensures shorter { IfOk result (λ x. length x.1.now ≤ length tokens.now) }
{
    match next_class(tokens) {
        Some(Class::Comma) => Ok((None, tokens)),
        Some(Class::RightParen) => Ok((None, tokens)),
        _ => some_actual(alloc, tokens, levels),
    }
}

/// Connections by position, to the closing parenthesis.
fn placed_connections<'t>(
    alloc: Global,
    tokens: &'t [Lexeme<'t>],
    levels: u32,
) -> Result<(Seq<Connection>, &'t [Lexeme<'t>]), Stop<'t>>
    requires { levels < 256 }
    ensures reads { Gives (λ x. (map connection_of x.0, x.1.now)) result (read.placed_connections levels tokens.now) }
    ensures shorter { IfOk result (λ x. length x.1.now < length tokens.now) }
{
    let (first, mut rest) = first_position(alloc, tokens, levels)?;
    let mut last = first;
    let mut ended = Vec::new(alloc);
    'positions: while is_next(rest, Class::Comma) {
        let (comma, after) = step(rest)?;
        ended.push(placed(comma, last))?;
        (last, rest) = position(alloc, after, levels)?;
    }
    let (closing, rest) = expect(rest, Class::RightParen)?;
    ended.push(placed(closing, last))?;
    Ok((Seq::from_vec(ended), rest))
}

/// The connections of an instance, to the closing parenthesis.
#[tactic(auto, unfolding(crate::specs::Items::connections))]
fn connections<'t>(
    alloc: Global,
    tokens: &'t [Lexeme<'t>],
    levels: u32,
) -> Result<(Seq<Connection>, &'t [Lexeme<'t>]), Stop<'t>>
    requires { levels < 256 }
    ensures reads { Gives (λ x. (map connection_of x.0, x.1.now)) result (read.connections levels tokens.now) }
    ensures shorter { IfOk result (λ x. length x.1.now < length tokens.now) }
{
    match next_class(tokens) {
        Some(Class::Dot) => named_connections(alloc, tokens, false, levels),
        Some(Class::RightParen) => {
            let (_, rest) = step(tokens)?;
            Ok((Seq::from_vec(Vec::new(alloc)), rest))
        }
        _ => placed_connections(alloc, tokens, levels),
    }
}

/// A value that a parameter is given by position.
#[tactic(auto, unfolding(crate::specs::Items::given_expression))]
fn given_expression<'t>(
    alloc: Global,
    tokens: &'t [Lexeme<'t>],
    levels: u32,
) -> Result<(Connection, &'t [Lexeme<'t>]), Stop<'t>>
    requires { levels < 256 }
    ensures reads { Gives (λ x. (connection_of x.0, x.1.now)) result (read.given_expression levels tokens.now) }
    ensures shorter { IfOk result (λ x. length x.1.now ≤ length tokens.now) }
{
    let (value, rest) = expression(alloc, tokens, levels)?;
    let place = place_of(&value);
    Ok((
        Connection {
            name: None,
            place,
            actual: Some(value),
        },
        rest,
    ))
}

/// Reads values that parameters are given by position.
#[derive(Drop)]
struct GivenReader {
    pub levels: u32,
}

impl PartReader for GivenReader {
    ghost use Rattle.std.specs.Prelude.{◌<◌};
    ghost use Rattle.v_tree.specs.Trees.{SourceConnection};
    ghost use Rattle.v_tree.specs.Views.{connection_of};
    ghost use Rattle.v_parse.specs.Items.{given_expression};

    type Part = Connection;

    ghost Tree = { SourceConnection };

    ghost tree_of = { connection_of };

    ghost reader = { λ it. given_expression it.levels };

    ghost can_read = { λ it. it.levels < 256 };

    fn read<'t>(
        &self,
        alloc: Global,
        tokens: &'t [Lexeme<'t>],
    ) -> Result<(Connection, &'t [Lexeme<'t>]), Stop<'t>> {
        given_expression(alloc, tokens, self.levels)
    }
}

/// Values that parameters are given by position, to the closing parenthesis.
#[tactic(auto, unfolding(crate::specs::Items::given_expressions))]
fn given_expressions<'t>(
    alloc: Global,
    tokens: &'t [Lexeme<'t>],
    levels: u32,
) -> Result<(Seq<Connection>, &'t [Lexeme<'t>]), Stop<'t>>
    requires { levels < 256 }
    ensures reads { Gives (λ x. (map connection_of x.0, x.1.now)) result (read.given_expressions levels tokens.now) }
    ensures shorter { IfOk result (λ x. length x.1.now < length tokens.now) }
{
    let (given, rest) = separated(alloc, tokens, &GivenReader { levels })?;
    let (given, _, rest) = closed(given, rest, Class::RightParen)?;
    Ok((given, rest))
}

/// What stands in the parentheses behind the `#` of an instance.
fn given_inside<'t>(
    alloc: Global,
    tokens: &'t [Lexeme<'t>],
    levels: u32,
) -> Result<(Seq<Connection>, &'t [Lexeme<'t>]), Stop<'t>>
    requires { levels < 256 }
    ensures reads { Gives (λ x. (map connection_of x.0, x.1.now)) result (by_class (read.given_inside levels) tokens.now) }
    ensures shorter { IfOk result (λ x. length x.1.now < length tokens.now) }
{
    match next_class(tokens) {
        Some(Class::Dot) => named_connections(alloc, tokens, true, levels),
        _ => given_expressions(alloc, tokens, levels),
    }
}

/// The parameters that instances are given, if there are any.
#[tactic(auto, unfolding(crate::specs::Items::given))]
pub fn given<'t>(
    alloc: Global,
    tokens: &'t [Lexeme<'t>],
    levels: u32,
) -> Result<(Seq<Connection>, &'t [Lexeme<'t>]), Stop<'t>>
    requires { levels < 256 }
    ensures reads { Gives (λ x. (map connection_of x.0, x.1.now)) result (read.given levels tokens.now) }
    ensures shorter { IfOk result (λ x. length x.1.now ≤ length tokens.now) }
{
    match next_class(tokens) {
        Some(Class::Hash) => {
            let (_, rest) = step(tokens)?;
            let (_, rest) = expect(rest, Class::LeftParen)?;
            given_inside(alloc, rest, levels)
        }
        _ => Ok((Seq::from_vec(Vec::new(alloc)), tokens)),
    }
}

/// An instance with its connections.
#[tactic(auto, unfolding(crate::specs::Items::inst))]
fn instance<'t>(
    alloc: Global,
    tokens: &'t [Lexeme<'t>],
    levels: u32,
) -> Result<(Instance, &'t [Lexeme<'t>]), Stop<'t>>
    requires { levels < 256 }
    ensures reads { Gives (λ x. (instance_of x.0, x.1.now)) result (read.inst levels tokens.now) }
    ensures shorter { IfOk result (λ x. length x.1.now < length tokens.now) }
{
    let ((name, place), rest) = name(alloc, tokens)?;
    let (_, rest) = expect(rest, Class::LeftParen)?;
    let (connections, rest) = connections(alloc, rest, levels)?;
    Ok((
        Instance {
            name,
            place,
            connections,
        },
        rest,
    ))
}

/// Reads instances.
#[derive(Drop)]
pub struct InstanceReader {
    pub levels: u32,
}

impl PartReader for InstanceReader {
    ghost use Rattle.std.specs.Prelude.{◌<◌};
    ghost use Rattle.v_tree.specs.Trees.{SourceInstance};
    ghost use Rattle.v_tree.specs.Views.{instance_of};
    ghost use Rattle.v_parse.specs.Items.{inst};

    type Part = Instance;

    ghost Tree = { SourceInstance };

    ghost tree_of = { instance_of };

    ghost reader = { λ it. inst it.levels };

    ghost can_read = { λ it. it.levels < 256 };

    fn read<'t>(
        &self,
        alloc: Global,
        tokens: &'t [Lexeme<'t>],
    ) -> Result<(Instance, &'t [Lexeme<'t>]), Stop<'t>> {
        instance(alloc, tokens, self.levels)
    }
}
