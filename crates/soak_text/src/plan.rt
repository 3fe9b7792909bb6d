// The text of the plan.

ghost use Rattle.std.specs.Prelude.{◌≡◌, ◌++◌, ◌≤◌, IfOk, OnOk, flat_map, string_bytes};
ghost use Rattle.soak_text.specs.Soak.{watch_line, watched, plan_text};

use std::alloc::Global;
use vf_base::NoMemory;

/// How many registers are watched at most.
const WATCHED: u32 = 8;

/// Adds the line that watches a register.
fn add_watch(text: &mut String, register: u32) -> Result<(), NoMemory>
    ensures { OnOk result (string_bytes text.new ≡ string_bytes text.old ++ watch_line register) }
{
    writeln!(text, "watch r{register}")?;
    Ok(())
}

/// Adds the lines that watch the last registers of a design.
fn add_watched(text: &mut String, size: u32) -> Result<(), NoMemory>
    ensures { OnOk result (string_bytes text.new ≡ string_bytes text.old ++ flat_map watch_line (watched size)) }
{
    let first = size.saturating_sub(WATCHED);
    'registers: for register in first..size {
        add_watch(text, register)?;
    }
    Ok(())
}

/// The plan for the designs of a size, from 1 to 4000.
///
/// # Errors
///
/// Want of memory.
#[tactic(auto, unfolding(crate::specs::Soak::plan_text))]
pub fn plan_text(alloc: Global, size: u32) -> Result<Vec<u8>, NoMemory>
    requires { (1 ≤ size) × (size ≤ 4000) }
    ensures { IfOk result (λ text. text.items ≡ plan_text size) }
{
    let mut text = String::new(alloc);
    text.push_str("end 320\n")?;
    add_watched(&mut text, size)?;
    text.push_str("strobe 8 10 318\nfaults all\n")?;
    Ok(text.into_bytes())
}
