// Reading the items of a module.

ghost use Rattle.std.specs.Prelude.{◌≡◌, ◌+◌, ◌≤◌, ◌<◌, map, length, IfOk};
ghost use Rattle.v_tree.specs.Views.{item_of};
ghost use Rattle.v_readers.specs.Given.{Gives};
ghost use Rattle.v_parse.specs.Items as read;
ghost use Rattle.v_parse.specs.Spelling.{gate_word};

use crate::connections::{InstanceReader, given};
use crate::declarations::{RegReader, WireReader, parameters, ports, signed, width};
use crate::drivers::{AssignmentReader, GateReader};
use four_value::GateKind;
use std::alloc::Global;
use v_expr::{SeparatedReader, closed, separated, with_next};
use v_readers::{Class, Lexeme, Stop, expect, name, next_class};
use v_stmt::statement;
use v_tree::{Direction, Item};

/// Parameters, to the semicolon.
#[tactic(auto, unfolding(crate::specs::Items::parameter_item))]
fn parameter_item<'t>(
    alloc: Global,
    tokens: &'t [Lexeme<'t>],
    is_local: bool,
    levels: u32,
) -> Result<(Item, &'t [Lexeme<'t>]), Stop<'t>>
    requires { levels < 256 }
    ensures reads { Gives (λ x. (item_of x.0, x.1.now)) result (read.parameter_item levels is_local tokens.now) }
    ensures shorter { IfOk result (λ x. length x.1.now < length tokens.now) }
{
    let (group, rest) = parameters(alloc, tokens, is_local, levels)?;
    let (group, _, rest) = closed(group, rest, Class::Semicolon)?;
    Ok((Item::Params(group), rest))
}

/// Ports, to the semicolon.
#[tactic(auto, unfolding(crate::specs::Items::port_item))]
fn port_item<'t>(
    alloc: Global,
    tokens: &'t [Lexeme<'t>],
    direction: Direction,
    levels: u32,
) -> Result<(Item, &'t [Lexeme<'t>]), Stop<'t>>
    requires { levels < 256 }
    ensures reads { Gives (λ x. (item_of x.0, x.1.now)) result (read.port_item levels direction tokens.now) }
    ensures shorter { IfOk result (λ x. length x.1.now < length tokens.now) }
{
    let (group, rest) = ports(alloc, tokens, direction, levels)?;
    let (group, _, rest) = closed(group, rest, Class::Semicolon)?;
    Ok((Item::Ports(group), rest))
}

/// Nets, to the semicolon.
#[tactic(auto, unfolding(crate::specs::Items::wire_item, crate::specs::Items::declared))]
fn wire_item<'t>(
    alloc: Global,
    tokens: &'t [Lexeme<'t>],
    levels: u32,
) -> Result<(Item, &'t [Lexeme<'t>]), Stop<'t>>
    requires { levels < 256 }
    ensures reads { Gives (λ x. (item_of x.0, x.1.now)) result (read.wire_item levels tokens.now) }
    ensures shorter { IfOk result (λ x. length x.1.now < length tokens.now) }
{
    let (place, rest) = expect(tokens, Class::Wire)?;
    let (signed, rest) = signed(rest)?;
    let (range, rest) = width(alloc, rest, levels)?;
    let row = SeparatedReader {
        part: WireReader { levels },
    };
    let (range, wires, rest) = with_next(range, alloc, rest, &row)?;
    let item = Item::Wire {
        place,
        signed,
        range,
        wires,
    };
    let (item, _, rest) = closed(item, rest, Class::Semicolon)?;
    Ok((item, rest))
}

/// Variables, to the semicolon.
#[tactic(auto, unfolding(crate::specs::Items::reg_item, crate::specs::Items::declared))]
fn reg_item<'t>(
    alloc: Global,
    tokens: &'t [Lexeme<'t>],
    levels: u32,
) -> Result<(Item, &'t [Lexeme<'t>]), Stop<'t>>
    requires { levels < 256 }
    ensures reads { Gives (λ x. (item_of x.0, x.1.now)) result (read.reg_item levels tokens.now) }
    ensures shorter { IfOk result (λ x. length x.1.now < length tokens.now) }
{
    let (place, rest) = expect(tokens, Class::Reg)?;
    let (signed, rest) = signed(rest)?;
    let (range, rest) = width(alloc, rest, levels)?;
    let row = SeparatedReader {
        part: RegReader { levels },
    };
    let (range, regs, rest) = with_next(range, alloc, rest, &row)?;
    let item = Item::Reg {
        place,
        signed,
        range,
        regs,
    };
    let (item, _, rest) = closed(item, rest, Class::Semicolon)?;
    Ok((item, rest))
}

/// Variables of the type `integer`, to the semicolon.
#[tactic(auto, unfolding(crate::specs::Items::integer_item, crate::specs::Items::declared))]
fn integer_item<'t>(
    alloc: Global,
    tokens: &'t [Lexeme<'t>],
    levels: u32,
) -> Result<(Item, &'t [Lexeme<'t>]), Stop<'t>>
    requires { levels < 256 }
    ensures reads { Gives (λ x. (item_of x.0, x.1.now)) result (read.integer_item levels tokens.now) }
    ensures shorter { IfOk result (λ x. length x.1.now < length tokens.now) }
{
    let (place, rest) = expect(tokens, Class::Integer)?;
    let (regs, rest) = separated(alloc, rest, &RegReader { levels })?;
    let (regs, _, rest) = closed(regs, rest, Class::Semicolon)?;
    Ok((Item::Integer { place, regs }, rest))
}

/// Continuous assignments, to the semicolon.
#[tactic(auto, unfolding(crate::specs::Items::assign_item, crate::specs::Items::declared))]
fn assign_item<'t>(
    alloc: Global,
    tokens: &'t [Lexeme<'t>],
    levels: u32,
) -> Result<(Item, &'t [Lexeme<'t>]), Stop<'t>>
    requires { levels < 256 }
    ensures reads { Gives (λ x. (item_of x.0, x.1.now)) result (read.assign_item levels tokens.now) }
    ensures shorter { IfOk result (λ x. length x.1.now < length tokens.now) }
{
    let (place, rest) = expect(tokens, Class::AssignWord)?;
    let (assignments, rest) = separated(alloc, rest, &AssignmentReader { levels })?;
    let (assignments, _, rest) = closed(assignments, rest, Class::Semicolon)?;
    Ok((Item::Assign { place, assignments }, rest))
}

/// The word of a kind of gate.
fn gate_word(kind: GateKind) -> Class
    ensures { result ≡ gate_word kind }
{
    match kind {
        GateKind::And => Class::AndWord,
        GateKind::Nand => Class::NandWord,
        GateKind::Or => Class::OrWord,
        GateKind::Nor => Class::NorWord,
        GateKind::Xor => Class::XorWord,
        GateKind::Xnor => Class::XnorWord,
        GateKind::Buf => Class::BufWord,
        GateKind::Not => Class::NotWord,
    }
}

/// Gates, to the semicolon.
#[tactic(auto, unfolding(crate::specs::Items::gate_item, crate::specs::Items::declared))]
fn gate_item<'t>(
    alloc: Global,
    tokens: &'t [Lexeme<'t>],
    kind: GateKind,
    levels: u32,
) -> Result<(Item, &'t [Lexeme<'t>]), Stop<'t>>
    requires { levels < 256 }
    ensures reads { Gives (λ x. (item_of x.0, x.1.now)) result (read.gate_item levels kind tokens.now) }
    ensures shorter { IfOk result (λ x. length x.1.now < length tokens.now) }
{
    let (place, rest) = expect(tokens, gate_word(kind))?;
    let (gates, rest) = separated(alloc, rest, &GateReader { kind, levels })?;
    let (gates, _, rest) = closed(gates, rest, Class::Semicolon)?;
    Ok((Item::Gate { place, kind, gates }, rest))
}

/// Instances, to the semicolon.
#[tactic(auto, unfolding(crate::specs::Items::instance_item, crate::specs::Items::declared))]
fn instance_item<'t>(
    alloc: Global,
    tokens: &'t [Lexeme<'t>],
    levels: u32,
) -> Result<(Item, &'t [Lexeme<'t>]), Stop<'t>>
    requires { levels < 256 }
    ensures reads { Gives (λ x. (item_of x.0, x.1.now)) result (read.instance_item levels tokens.now) }
    ensures shorter { IfOk result (λ x. length x.1.now < length tokens.now) }
{
    let ((module_name, place), rest) = name(alloc, tokens)?;
    let (parameters, rest) = given(alloc, rest, levels)?;
    let row = SeparatedReader {
        part: InstanceReader { levels },
    };
    let (parameters, instances, rest) = with_next(parameters, alloc, rest, &row)?;
    let item = Item::Instance {
        place,
        module_name,
        parameters,
        instances,
    };
    let (item, _, rest) = closed(item, rest, Class::Semicolon)?;
    Ok((item, rest))
}

/// A process that runs once.
#[tactic(auto, unfolding(crate::specs::Items::initial_item))]
fn initial_item<'t>(
    alloc: Global,
    tokens: &'t [Lexeme<'t>],
    levels: u32,
) -> Result<(Item, &'t [Lexeme<'t>]), Stop<'t>>
    requires { levels < 256 }
    ensures reads { Gives (λ x. (item_of x.0, x.1.now)) result (read.initial_item levels tokens.now) }
    ensures shorter { IfOk result (λ x. length x.1.now < length tokens.now) }
{
    let (place, rest) = expect(tokens, Class::Initial)?;
    let (body, rest) = statement(alloc, rest, levels)?;
    Ok((Item::Initial { place, body }, rest))
}

/// A process that runs over and over.
#[tactic(auto, unfolding(crate::specs::Items::always_item))]
fn always_item<'t>(
    alloc: Global,
    tokens: &'t [Lexeme<'t>],
    levels: u32,
) -> Result<(Item, &'t [Lexeme<'t>]), Stop<'t>>
    requires { levels < 256 }
    ensures reads { Gives (λ x. (item_of x.0, x.1.now)) result (read.always_item levels tokens.now) }
    ensures shorter { IfOk result (λ x. length x.1.now < length tokens.now) }
{
    let (place, rest) = expect(tokens, Class::Always)?;
    let (body, rest) = statement(alloc, rest, levels)?;
    Ok((Item::Always { place, body }, rest))
}

/// An item of a module, with at most so many levels below its outermost expressions and statement.
#[tactic(auto, unfolding(crate::specs::Items::item))]
pub fn item<'t>(
    alloc: Global,
    tokens: &'t [Lexeme<'t>],
    levels: u32,
) -> Result<(Item, &'t [Lexeme<'t>]), Stop<'t>>
    requires { levels < 256 }
    ensures reads { Gives (λ x. (item_of x.0, x.1.now)) result (read.item levels tokens.now) }
    ensures shorter { IfOk result (λ x. length x.1.now < length tokens.now) }
{
    match next_class(tokens) {
        Some(Class::Parameter) => parameter_item(alloc, tokens, false, levels),
        Some(Class::LocalParameter) => parameter_item(alloc, tokens, true, levels),
        Some(Class::Input) => port_item(alloc, tokens, Direction::Input, levels),
        Some(Class::Output) => port_item(alloc, tokens, Direction::Output, levels),
        Some(Class::Wire) => wire_item(alloc, tokens, levels),
        Some(Class::Reg) => reg_item(alloc, tokens, levels),
        Some(Class::Integer) => integer_item(alloc, tokens, levels),
        Some(Class::AssignWord) => assign_item(alloc, tokens, levels),
        Some(Class::AndWord) => gate_item(alloc, tokens, GateKind::And, levels),
        Some(Class::NandWord) => gate_item(alloc, tokens, GateKind::Nand, levels),
        Some(Class::OrWord) => gate_item(alloc, tokens, GateKind::Or, levels),
        Some(Class::NorWord) => gate_item(alloc, tokens, GateKind::Nor, levels),
        Some(Class::XorWord) => gate_item(alloc, tokens, GateKind::Xor, levels),
        Some(Class::XnorWord) => gate_item(alloc, tokens, GateKind::Xnor, levels),
        Some(Class::BufWord) => gate_item(alloc, tokens, GateKind::Buf, levels),
        Some(Class::NotWord) => gate_item(alloc, tokens, GateKind::Not, levels),
        Some(Class::Initial) => initial_item(alloc, tokens, levels),
        Some(Class::Always) => always_item(alloc, tokens, levels),
        Some(Class::Name) => instance_item(alloc, tokens, levels),
        _ => Err(Stop::Wrong(tokens)),
    }
}
