// The text of the design.

ghost use Rattle.std.specs.Prelude.{◌≡◌, ◌++◌, ◌≤◌, IfOk, OnOk, flat_map, string_bytes};
ghost use Rattle.soak_text.specs.Soak.{kind_text, register_line, wire_line, gate_line, clocked_line, gate_lines, design_text};

use crate::draws::{Kind, Stage, draw_stages};
use std::alloc::Global;
use vf_base::NoMemory;

/// The word of a kind.
fn kind_word(kind: Kind) -> &'static str
    ensures { result.now ≡ kind_text kind }
{
    match kind {
        Kind::And => "and",
        Kind::Nand => "nand",
        Kind::Or => "or",
        Kind::Nor => "nor",
        Kind::Xor => "xor",
        Kind::Xnor => "xnor",
    }
}

/// Adds the line that declares a stage's register.
fn add_register(text: &mut String, stage: &Stage) -> Result<(), NoMemory>
    ensures { OnOk result (string_bytes text.new ≡ string_bytes text.old ++ register_line stage.now) }
{
    let Stage { number, first, .. } = *stage;
    writeln!(text, "reg r{number} = {first};")?;
    Ok(())
}

/// Adds the line of the wire that a stage's gate drives.
fn add_wire(text: &mut String, stage: &Stage) -> Result<(), NoMemory>
    ensures { OnOk result (string_bytes text.new ≡ string_bytes text.old ++ wire_line stage.now) }
{
    let number = stage.number;
    writeln!(text, "wire w{number};")?;
    Ok(())
}

/// Adds the line of a stage's gate.
fn add_gate(text: &mut String, stage: &Stage) -> Result<(), NoMemory>
    ensures { OnOk result (string_bytes text.new ≡ string_bytes text.old ++ gate_line stage.now) }
{
    let Stage {
        number,
        kind,
        left,
        right,
        ..
    } = *stage;
    let word = kind_word(kind);
    writeln!(text, "{word} g{number}(w{number}, r{left}, r{right});")?;
    Ok(())
}

/// Adds the line by which a stage's register takes its wire's value over.
fn add_clocked(text: &mut String, stage: &Stage) -> Result<(), NoMemory>
    ensures { OnOk result (string_bytes text.new ≡ string_bytes text.old ++ clocked_line stage.now) }
{
    let number = stage.number;
    writeln!(text, "always @(posedge clk) r{number} <= w{number};")?;
    Ok(())
}

/// Adds the three lines of a stage's gate.
fn add_gate_lines(text: &mut String, stage: &Stage) -> Result<(), NoMemory>
    ensures { OnOk result (string_bytes text.new ≡ string_bytes text.old ++ gate_lines stage.now) }
{
    add_wire(text, stage)?;
    add_gate(text, stage)?;
    add_clocked(text, stage)?;
    Ok(())
}

/// Adds the lines of the registers of some stages.
fn add_registers(text: &mut String, stages: &[Stage]) -> Result<(), NoMemory>
    ensures { OnOk result (string_bytes text.new ≡ string_bytes text.old ++ flat_map register_line stages.now) }
{
    'stages: for stage in stages {
        add_register(text, stage)?;
    }
    Ok(())
}

/// Adds the lines of the gates of some stages.
fn add_gates(text: &mut String, stages: &[Stage]) -> Result<(), NoMemory>
    ensures { OnOk result (string_bytes text.new ≡ string_bytes text.old ++ flat_map gate_lines stages.now) }
{
    'stages: for stage in stages {
        add_gate_lines(text, stage)?;
    }
    Ok(())
}

/// The design of a number and a size, which is its number of stages, from 1 to 4000.
///
/// # Errors
///
/// Want of memory.
#[tactic(auto, unfolding(crate::specs::Soak::design_text))]
pub fn design_text(alloc: Global, number: u32, size: u32) -> Result<Vec<u8>, NoMemory>
    requires { (1 ≤ size) × (size ≤ 4000) }
    ensures { IfOk result (λ text. text.items ≡ design_text number size) }
{
    let stages = draw_stages(alloc, number, size)?;
    let mut text = String::new(alloc);
    text.push_str("module top;\nreg clk = 0;\nalways #5 clk = ~clk;\n")?;
    add_registers(&mut text, &stages)?;
    add_gates(&mut text, &stages)?;
    text.push_str("endmodule\n")?;
    Ok(text.into_bytes())
}
