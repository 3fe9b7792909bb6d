// What is drawn for each stage of the design.

ghost use Rattle.std.specs.Prelude.{◌≡◌, ◌+◌, ◌*◌, ◌≤◌, ℕ, IfOk};
ghost use Rattle.soak_text.specs.Soak.{state, draw, kind_of, stage_of, stages_of};

use std::alloc::Global;
use vf_base::NoMemory;

/// The kinds of gates that are drawn.
#[derive(Clone, Copy, PartialEq, Eq, Debug)]
pub enum Kind {
    And,
    Nand,
    Or,
    Nor,
    Xor,
    Xnor,
}

/// A register of one bit, with the gate that gives its next value.
#[derive(Clone, Copy, PartialEq, Eq, Debug)]
pub struct Stage {
    /// Its place among the stages, from 0.
    pub number: u32,
    /// The kind of its gate.
    pub kind: Kind,
    /// The number of the register that the gate reads first.
    pub left: u32,
    /// The number of the register that the gate reads second.
    pub right: u32,
    /// The register's first value, 0 or 1.
    pub first: u32,
}

/// The kind that a draw stands for.
fn kind_of(draw: u32) -> Kind
    ensures { result ≡ kind_of draw }
{
    match draw % 6 {
        0 => Kind::And,
        1 => Kind::Nand,
        2 => Kind::Or,
        3 => Kind::Nor,
        4 => Kind::Xor,
        _ => Kind::Xnor,
    }
}

/// A linear congruential generator.
#[derive(Drop)]
struct Generator {
    state: u32,
}

impl Generator {
    /// The next draw: the upper half of the next state.
    fn next_draw(&mut self) -> u32
        ensures draw { result ≡ draw self.old.state 1 }
        ensures state { self.new.state ≡ state self.old.state 1 }
    {
        self.state = self
            .state
            .wrapping_mul(1_664_525)
            .wrapping_add(1_013_904_223);
        self.state / 65_536
    }

    /// The stage of a number, by the next four draws.
    fn next_stage(&mut self, number: u32, size: u32) -> Stage
        requires { 1 ≤ size }
        ensures stage { (seed : ℕ) → self.old.state ≡ state seed (4 * number) → result ≡ stage_of seed size number }
        ensures state { (seed : ℕ) → self.old.state ≡ state seed (4 * number) → self.new.state ≡ state seed (4 * (number + 1)) }
    {
        let kind = kind_of(self.next_draw());
        let left = self.next_draw() % size;
        let right = self.next_draw() % size;
        let first = self.next_draw() % 2;
        Stage {
            number,
            kind,
            left,
            right,
            first,
        }
    }
}

/// The stages of a design, in order.
pub(crate) fn draw_stages(alloc: Global, number: u32, size: u32) -> Result<Vec<Stage>, NoMemory>
    requires { 1 ≤ size }
    ensures { IfOk result (λ stages. stages.items ≡ stages_of number size) }
{
    let mut generator = Generator { state: number };
    let mut stages = Vec::with_capacity(alloc, size as usize)?;
    'stages: for stage in 0..size {
        let drawn = generator.next_stage(stage, size);
        stages.push(drawn)?;
    }
    Ok(stages)
}
