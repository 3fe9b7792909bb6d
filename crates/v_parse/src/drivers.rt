// Reading continuous assignments and gates.

ghost use Rattle.std.specs.Prelude.{◌≡◌, ◌+◌, ◌≤◌, ◌<◌, List, [], ◌∷◌, map, length, IfOk};
ghost use Rattle.v_tree.specs.Views.{expression_of, name_in, target_of, assignment_of, gate_of};
ghost use Rattle.v_readers.specs.Given.{Gives};
ghost use Rattle.v_parse.specs.Items as read;
ghost use Rattle.v_parse.specs.Spelling.{has_one_input};

use crate::declarations::named;
use crate::headers::alone;
use four_value::GateKind;
use std::alloc::Global;
use v_expr::{ExpressionReader, PartReader, closed, expression, separated, target, with_next};
use v_readers::{Class, Lexeme, Stop, next_class};
use v_tree::{Assignment, Expr, Gate, Name, Target};
use vf_base::Seq;

/// A target with the value that it is assigned.
#[tactic(auto, unfolding(crate::specs::Items::assignment))]
pub fn assignment<'t>(
    alloc: Global,
    tokens: &'t [Lexeme<'t>],
    levels: u32,
) -> Result<(Assignment, &'t [Lexeme<'t>]), Stop<'t>>
    requires { levels < 256 }
    ensures reads { Gives (λ x. (assignment_of x.0, x.1.now)) result (read.assignment levels tokens.now) }
    ensures shorter { IfOk result (λ x. length x.1.now < length tokens.now) }
{
    let (target, rest) = target(alloc, tokens, levels)?;
    let (target, _, rest) = closed(target, rest, Class::Assign)?;
    let (target, value, rest) = with_next(target, alloc, rest, &ExpressionReader { levels })?;
    Ok((Assignment { target, value }, rest))
}

/// Reads targets with the values that they are assigned.
#[derive(Drop)]
pub struct AssignmentReader {
    pub levels: u32,
}

impl PartReader for AssignmentReader {
    ghost use Rattle.std.specs.Prelude.{◌<◌};
    ghost use Rattle.v_tree.specs.Trees.{SourceAssignment};
    ghost use Rattle.v_tree.specs.Views.{assignment_of};
    ghost use Rattle.v_parse.specs.Items.{assignment};

    type Part = Assignment;

    ghost Tree = { SourceAssignment };

    ghost tree_of = { assignment_of };

    ghost reader = { λ it. assignment it.levels };

    ghost can_read = { λ it. it.levels < 256 };

    fn read<'t>(
        &self,
        alloc: Global,
        tokens: &'t [Lexeme<'t>],
    ) -> Result<(Assignment, &'t [Lexeme<'t>]), Stop<'t>> {
        assignment(alloc, tokens, self.levels)
    }
}

/// The name of a gate, if it has one.
#[tactic(auto, unfolding(crate::specs::Items::gate_name))]
fn gate_name<'t>(
    alloc: Global,
    tokens: &'t [Lexeme<'t>],
) -> Result<(Option<Name>, &'t [Lexeme<'t>]), Stop<'t>>
    ensures reads { Gives (λ x. (name_in x.0, x.1.now)) result (read.gate_name tokens.now) }
    ensures shorter { IfOk result (λ x. length x.1.now ≤ length tokens.now) }
{
    match next_class(tokens) {
        Some(Class::Name) => {
            let (name, rest) = named(alloc, tokens)?;
            Ok((Some(name), rest))
        }
        _ => Ok((None, tokens)),
    }
}

/// Whether a gate of this kind has one input alone (IEEE 1364-2001, clause 7.3).
fn has_one_input(kind: GateKind) -> bool
    ensures { result ≡ has_one_input kind }
{
    match kind {
        GateKind::Buf => true,
        GateKind::Not => true,
        _ => false,
    }
}

/// The inputs of a gate.
#[tactic(auto, unfolding(crate::specs::Items::inputs))]
fn inputs<'t>(
    alloc: Global,
    tokens: &'t [Lexeme<'t>],
    kind: GateKind,
    levels: u32,
) -> Result<(Seq<Expr>, &'t [Lexeme<'t>]), Stop<'t>>
    requires { levels < 256 }
    ensures reads { Gives (λ x. (map expression_of x.0, x.1.now)) result (read.inputs levels kind tokens.now) }
    ensures shorter { IfOk result (λ x. length x.1.now ≤ length tokens.now) }
{
    if has_one_input(kind) {
        let (input, rest) = expression(alloc, tokens, levels)?;
        let inputs = alone(alloc, input)?;
        Ok((inputs, rest))
    } else {
        separated(alloc, tokens, &ExpressionReader { levels })
    }
}

/// Reads targets within so many levels.
#[derive(Drop)]
struct TargetReader {
    pub levels: u32,
}

impl PartReader for TargetReader {
    ghost use Rattle.std.specs.Prelude.{◌<◌};
    ghost use Rattle.v_tree.specs.Trees.{SourceTarget};
    ghost use Rattle.v_tree.specs.Views.{target_of};
    ghost use Rattle.v_expr.specs.Parts.{target};

    type Part = Target;

    ghost Tree = { SourceTarget };

    ghost tree_of = { target_of };

    ghost reader = { λ it. target it.levels };

    ghost can_read = { λ it. it.levels < 256 };

    fn read<'t>(
        &self,
        alloc: Global,
        tokens: &'t [Lexeme<'t>],
    ) -> Result<(Target, &'t [Lexeme<'t>]), Stop<'t>> {
        target(alloc, tokens, self.levels)
    }
}

/// Reads the inputs of a gate of this kind.
#[derive(Drop)]
struct InputReader {
    pub kind: GateKind,
    pub levels: u32,
}

impl PartReader for InputReader {
    ghost use Rattle.std.specs.Prelude.{◌<◌, List, map};
    ghost use Rattle.v_tree.specs.Trees.{SourceExpression};
    ghost use Rattle.v_tree.specs.Views.{expression_of};
    ghost use Rattle.v_parse.specs.Items.{inputs};

    type Part = Seq<Expr>;

    ghost Tree = { List SourceExpression };

    ghost tree_of = { map expression_of };

    ghost reader = { λ it. inputs it.levels it.kind };

    ghost can_read = { λ it. it.levels < 256 };

    fn read<'t>(
        &self,
        alloc: Global,
        tokens: &'t [Lexeme<'t>],
    ) -> Result<(Seq<Expr>, &'t [Lexeme<'t>]), Stop<'t>> {
        inputs(alloc, tokens, self.kind, self.levels)
    }
}

/// A gate with these inputs.
fn with_inputs(gate: Gate, inputs: Seq<Expr>) -> Gate
    ensures { gate_of result ≡ record { name = name_in gate.name; output = target_of gate.output; inputs = map expression_of inputs } }
{
    let Gate {
        name,
        output,
        inputs: _,
    } = gate;
    Gate {
        name,
        output,
        inputs,
    }
}

/// A gate with its terminals.
#[tactic(auto, unfolding(crate::specs::Items::gate))]
fn gate<'t>(
    alloc: Global,
    tokens: &'t [Lexeme<'t>],
    kind: GateKind,
    levels: u32,
) -> Result<(Gate, &'t [Lexeme<'t>]), Stop<'t>>
    requires { levels < 256 }
    ensures reads { Gives (λ x. (gate_of x.0, x.1.now)) result (read.gate levels kind tokens.now) }
    ensures shorter { IfOk result (λ x. length x.1.now < length tokens.now) }
{
    let (name, rest) = gate_name(alloc, tokens)?;
    let (name, _, rest) = closed(name, rest, Class::LeftParen)?;
    let (name, output, rest) = with_next(name, alloc, rest, &TargetReader { levels })?;
    let terminals = Gate {
        name,
        output,
        inputs: Seq::from_vec(Vec::new(alloc)),
    };
    let (terminals, _, rest) = closed(terminals, rest, Class::Comma)?;
    let (terminals, inputs, rest) = with_next(
        terminals,
        alloc,
        rest,
        &InputReader { kind, levels },
    )?;
    let gate = with_inputs(terminals, inputs);
    let (gate, _, rest) = closed(gate, rest, Class::RightParen)?;
    Ok((gate, rest))
}

/// Reads gates of this kind.
#[derive(Drop)]
pub struct GateReader {
    pub kind: GateKind,
    pub levels: u32,
}

impl PartReader for GateReader {
    ghost use Rattle.std.specs.Prelude.{◌<◌};
    ghost use Rattle.v_tree.specs.Trees.{SourceGate};
    ghost use Rattle.v_tree.specs.Views.{gate_of};
    ghost use Rattle.v_parse.specs.Items.{gate};

    type Part = Gate;

    ghost Tree = { SourceGate };

    ghost tree_of = { gate_of };

    ghost reader = { λ it. gate it.levels it.kind };

    ghost can_read = { λ it. it.levels < 256 };

    fn read<'t>(
        &self,
        alloc: Global,
        tokens: &'t [Lexeme<'t>],
    ) -> Result<(Gate, &'t [Lexeme<'t>]), Stop<'t>> {
        gate(alloc, tokens, self.kind, self.levels)
    }
}
