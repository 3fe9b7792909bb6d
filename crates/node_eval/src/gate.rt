// What a gate gives its output.

ghost use Rattle.std.specs.Prelude.{◌≡◌, ℕ, ◌+◌, ◌<◌, ◌≤◌, ◌^◌, length};
ghost use Rattle.vf_base.specs.Base.{node_number};
ghost use Rattle.vf_base.specs.Lists.{map_numbered};
ghost use Rattle.v_design.specs.Designs.{forced_terminal};
ghost use Rattle.v_design.specs.Assignments.{value_at, gate_bit, label_values};
ghost use Rattle.v_design.specs.Plain.{expression_of, expressions_of};
ghost use Rattle.v_design.specs.Reads.{named_in_parts};
ghost use Rattle.v_design.specs.Sized.{levels_of_parts};
ghost use Rattle.v_design.specs.WellFormed.{AreTerminals};
ghost use Rattle.v_design.specs.Views.{machine_of};
ghost use Rattle.four_value.specs.Values.{bit_at};
ghost use Rattle.expr_eval.specs.Operands.{AreThere};
ghost use Rattle.node_eval.specs.Gates.{gate_start, gate_step, gate_end, terminal_bits};

use expr_eval::{Stack, eval};
use four_value::{Bit, GateKind};
use v_design::{Fault, FlatExpr, Site, Values, View};
use vf_base::NodeId;

/// The output of a gate before its first terminal.
fn gate_start(kind: GateKind) -> Bit
    ensures { result ≡ gate_start kind }
{
    match kind {
        GateKind::And | GateKind::Nand => Bit::One,
        GateKind::Or | GateKind::Nor => Bit::Zero,
        GateKind::Xor | GateKind::Xnor => Bit::Zero,
        GateKind::Buf | GateKind::Not => Bit::Zero,
    }
}

/// The output of a gate with one more terminal.
fn gate_step(kind: GateKind, bit: Bit, terminal: Bit) -> Bit
    ensures { result ≡ gate_step kind bit terminal }
{
    match kind {
        GateKind::And | GateKind::Nand => bit.and(terminal),
        GateKind::Or | GateKind::Nor => bit.or(terminal),
        GateKind::Xor | GateKind::Xnor => bit.xor(terminal),
        GateKind::Buf | GateKind::Not => bit.xor(terminal),
    }
}

/// The output of a gate past its last terminal.
fn gate_end(kind: GateKind, bit: Bit) -> Bit
    ensures { result ≡ gate_end kind bit }
{
    match kind {
        GateKind::And | GateKind::Or | GateKind::Xor | GateKind::Buf => bit,
        GateKind::Nand | GateKind::Nor | GateKind::Xnor | GateKind::Not => bit.not(),
    }
}

/// What a gate sees at one of its terminals, counted from 1, in place of a bit. A gate may have any number of terminals.
fn forced_at(view: &View, node: NodeId, terminal: usize, bit: Bit) -> Bit
    ensures { result ≡ forced_terminal (machine_of view.now).fault (node_number node) terminal bit }
{
    match view.fault {
        Some(
            Fault {
                site: Site::Terminal(gate, number),
                value: stuck,
            },
        ) if gate == node && number as usize == terminal => Bit::from_bool(stuck),
        _ => bit,
    }
}

/// The output of a gate over its terminals, each as the view forces it.
pub fn gate_output<V: Values>(
    view: &View,
    node: NodeId,
    kind: GateKind,
    terminals: &[FlatExpr],
    values: &V,
    stack: &mut Stack,
) -> Bit
    requires sized { AreTerminals (expressions_of terminals.now) }
    requires there { AreThere (V.values values.now) (named_in_parts (expressions_of terminals.now)) }
    requires room { levels_of_parts (expressions_of terminals.now) ≤ stack.old.depth }
    ensures bit { result ≡ gate_bit kind (terminal_bits (machine_of view.now).fault (node_number node) (label_values (value_at (V.values values.now)) (expressions_of terminals.now))) }
    ensures room { stack.new.depth ≡ stack.old.depth }
{
    let mut bit = gate_start(kind);
    'terminals: for (number, terminal) in terminals.iter().enumerate() {
        let seen = eval(terminal, values, stack).bit(0);
        let forced = forced_at(view, node, number + 1, seen);
        bit = gate_step(kind, bit, forced);
    }
    gate_end(kind, bit)
}
