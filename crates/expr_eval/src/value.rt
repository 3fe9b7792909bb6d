// The value of an expression, part by part.

ghost use Rattle.std.specs.Prelude.{◌≡◌, ◌≤◌, ◌<◌, ◌*◌, length, IfOk};
ghost use Rattle.four_value.specs.Values.{chosen_value, truth_of};
ghost use Rattle.v_design.specs.Plain.{expression_of, expressions_of};
ghost use Rattle.v_design.specs.Reads.{named_in, named_in_parts};
ghost use Rattle.v_design.specs.Sized.{IsSized, AreSizedAlone, levels_of, own_width_of_parts};
ghost use Rattle.v_design.specs.Assignments.{value_at};
ghost use Rattle.v_design.specs.Expressions.{sign_of, value_of, parts_value, repeated};
ghost use Rattle.expr_eval.specs.Operands.{AreThere};

use crate::operand::{bit_of_index, part_bits, put_left, put_right, vector_bits, word_bits};
use four_value::{Truth, Vec4, binary, unary};
use std::alloc::Global;
use v_design::{FlatExpr, Values};
use vf_base::NoMemory;

/// Room for evaluating expressions of so many levels.
#[derive(Drop)]
pub struct Stack {
    /// The levels for which there is room.
    pub depth: u32,
}

impl Stack {
    /// Room for expressions of at most so many levels.
    pub fn new(_alloc: Global, depth: u32) -> Result<Stack, NoMemory>
        ensures { IfOk result (λ stack. stack.depth ≡ depth) }
    {
        Ok(Stack { depth })
    }
}

/// The value of an expression over the values of the objects that it names. It takes no memory.
pub fn eval<V: Values>(expr: &FlatExpr, values: &V, stack: &mut Stack) -> Vec4
    requires sized { IsSized (expression_of expr.now) }
    requires there { AreThere (V.values values.now) (named_in (expression_of expr.now)) }
    requires room { levels_of (expression_of expr.now) ≤ stack.old.depth }
    ensures value { result ≡ value_of (value_at (V.values values.now)) (expression_of expr.now) }
    ensures room { stack.new.depth ≡ stack.old.depth }
{
    let _depth = stack.depth;
    value_in(expr, values)
}

/// Whether an expression is signed.
pub fn is_signed(expr: &FlatExpr) -> bool
    ensures { result ≡ sign_of (expression_of expr.now) }
{
    match expr {
        FlatExpr::Constant { signed, .. } => *signed,
        FlatExpr::Name { signed, .. } => *signed,
        FlatExpr::BitSelect { signed, .. } => *signed,
        FlatExpr::PartSelect { signed, .. } => *signed,
        FlatExpr::WordSelect { signed, .. } => *signed,
        FlatExpr::Unary { signed, .. } => *signed,
        FlatExpr::Binary { signed, .. } => *signed,
        FlatExpr::Conditional { signed, .. } => *signed,
        FlatExpr::Concatenation { signed, .. } => *signed,
        FlatExpr::Replication { signed, .. } => *signed,
    }
}

/// The bits so many times over.
pub fn repeated_bits(count: u32, bits: Vec4) -> Vec4
    requires some { 1 ≤ count }
    requires few { count * length bits ≤ 128 }
    ensures { result ≡ repeated count bits }
{
    let mut all: Option<Vec4> = None;
    'times: for _ in 0..count {
        all = Some(put_left(all, bits));
    }
    match all {
        Some(all) => all,
        None => unreachable!(),
    }
}

/// The one of two branches that a condition chooses, or both merged.
pub fn chosen(condition: Vec4, first: Vec4, second: Vec4) -> Vec4
    requires { length first ≡ length second }
    ensures { result ≡ chosen_value (truth_of condition) first second }
{
    match condition.truth() {
        Truth::True => first,
        Truth::False => second,
        Truth::Unknown => first.merge(second),
    }
}

#[cycle(eval)]
fn value_in<V: Values>(expr: &FlatExpr, values: &V) -> Vec4
    requires sized { IsSized (expression_of expr.now) }
    requires there { AreThere (V.values values.now) (named_in (expression_of expr.now)) }
    ensures { result ≡ value_of (value_at (V.values values.now)) (expression_of expr.now) }
{
    match expr {
        FlatExpr::Constant {
            width,
            signed,
            value,
        } => value.resize_by_sign(*signed, *width),
        FlatExpr::Name {
            width,
            signed,
            vector,
        } => vector_bits(vector.pieces.as_slice(), values).resize_by_sign(*signed, *width),
        FlatExpr::BitSelect {
            width,
            signed,
            vector,
            index,
        } => {
            let number = value_in(index, values).as_natural(is_signed(index));
            let bit = bit_of_index(vector, values, number);
            Vec4::of_bit(bit).resize_by_sign(*signed, *width)
        }
        FlatExpr::PartSelect {
            width,
            signed,
            vector,
            from,
            to,
        } => part_bits(vector, values, *from, *to).resize_by_sign(*signed, *width),
        FlatExpr::WordSelect {
            width,
            signed,
            memory,
            index,
        } => {
            let number = value_in(index, values).as_natural(is_signed(index));
            word_bits(memory, values, number).resize_by_sign(*signed, *width)
        }
        FlatExpr::Unary {
            width,
            signed,
            operator,
            operand,
        } => unary(*operator, value_in(operand, values)).resize_by_sign(*signed, *width),
        FlatExpr::Binary {
            width,
            signed,
            operator,
            left,
            right,
        } => {
            let a = value_in(left, values);
            let b = value_in(right, values);
            binary(*operator, is_signed(left), a, b).resize_by_sign(*signed, *width)
        }
        FlatExpr::Conditional {
            width,
            signed,
            condition,
            first,
            second,
        } => {
            let c = value_in(condition, values);
            let a = value_in(first, values);
            let b = value_in(second, values);
            chosen(c, a, b).resize_by_sign(*signed, *width)
        }
        FlatExpr::Concatenation {
            width,
            signed,
            parts,
        } => parts_bits(parts, values).resize_by_sign(*signed, *width),
        FlatExpr::Replication {
            width,
            signed,
            count,
            parts,
        } => repeated_bits(*count, parts_bits(parts, values)).resize_by_sign(*signed, *width),
    }
}

/// The bits of the parts of a concatenation, the leftmost part being the most significant.
#[cycle(eval)]
fn parts_bits<V: Values>(parts: &[FlatExpr], values: &V) -> Vec4
    requires sized { AreSizedAlone (expressions_of parts.now) }
    requires there { AreThere (V.values values.now) (named_in_parts (expressions_of parts.now)) }
    requires some { 1 ≤ own_width_of_parts (expressions_of parts.now) }
    requires few { own_width_of_parts (expressions_of parts.now) ≤ 128 }
    ensures { result ≡ parts_value (value_at (V.values values.now)) (expressions_of parts.now) }
{
    let mut bits: Option<Vec4> = None;
    'parts: for part in parts {
        let value = value_in(part, values);
        bits = Some(put_right(bits, value));
    }
    match bits {
        Some(bits) => bits,
        None => unreachable!(),
    }
}
