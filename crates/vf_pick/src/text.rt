// The text of picked strobes.

ghost use Rattle.std.specs.Prelude.{◌≡◌, ◌++◌, IfOk, OnOk, count_by, length};
ghost use Rattle.v_design.specs.Plain.{fault_of};
ghost use Rattle.v_design.specs.PlainDesigns.{design_of, plan_of};
ghost use Rattle.strobe_detect.specs.declared.hard.Hard.{Hard};
ghost use Rattle.vf_pick.specs.Faults.{lists_of, AreInOrder};
ghost use Rattle.vf_pick.specs.Picks.{ArePicked};
ghost use Rattle.vf_pick.specs.Texts.{has_strobe, strobe_line, pick_total, pick_text};

use crate::line::{append_count, append_fault};
use crate::picking::Picked;
use fault_list::append;
use std::alloc::Global;
use strobe_detect::Hard;
use v_design::{Design, Fault, Plan};
use vf_base::NoMemory;

/// Whether a fault has a hard strobe.
fn has_strobe(hard: &Hard) -> bool
    ensures { result ≡ has_strobe hard.now.times }
{
    0 < hard.times.as_slice().len()
}

/// How many faults have a hard strobe.
fn count_detected(hard: &[Hard]) -> usize
    ensures { result ≡ count_by (λ (one : Hard). has_strobe one.times) hard.now }
{
    hard.iter().filter(|one| has_strobe(one)).count()
}

/// Adds the line of a kept strobe, whose time is in steps, with the fault for which it is kept.
#[tactic(auto, unfolding(crate::specs::Texts::strobe_line))]
fn append_strobe(
    alloc: Global,
    out: &mut Vec<u8>,
    design: &Design,
    time: u64,
    fault: Fault,
) -> Result<(), NoMemory>
    ensures { OnOk result (out.new.items ≡ out.old.items ++ strobe_line (design_of design.now) time (fault_of fault)) }
{
    append_count(alloc, out, b"strobe ", time)?;
    append(out, b" for ")?;
    append_fault(alloc, out, design, fault)?;
    append(out, b"\n")?;
    Ok(())
}

/// Adds the line of the totals.
fn append_total(
    alloc: Global,
    out: &mut Vec<u8>,
    strobes: usize,
    kept: usize,
    detected: usize,
) -> Result<(), NoMemory>
    ensures { OnOk result (out.new.items ≡ out.old.items ++ pick_total strobes kept detected) }
{
    append_count(alloc, out, b"total ", strobes as u64)?;
    append_count(alloc, out, b" kept ", kept as u64)?;
    append_count(alloc, out, b" detected ", detected as u64)?;
    append(out, b"\n")?;
    Ok(())
}

/// The text of the strobes of a plan that are picked by the hard strobes of its listed faults: each with its fault, and the totals.
///
/// # Errors
///
/// Want of memory.
pub fn write_pick(
    alloc: Global,
    design: &Design,
    plan: &Plan,
    hard: &[Hard],
    picked: &[Picked],
) -> Result<Vec<u8>, NoMemory>
    // The hard strobes of each listed fault are given, in list order.
    requires listed { AreInOrder (length (plan_of plan.now).faults) hard.now }
    requires picked { ArePicked (plan_of plan.now).strobes hard.now picked.now }
    ensures { IfOk result (λ text. text.items ≡ pick_text (design_of design.now) (plan_of plan.now).faults (plan_of plan.now).strobes (lists_of hard.now)) }
{
    let mut out = Vec::new(alloc);
    append(&mut out, b"vfault pick 1\n")?;
    let faults = plan.faults.as_slice();
    'picked: for one in picked {
        let fault = faults[one.fault.0 as usize];
        append_strobe(alloc, &mut out, design, one.time, fault)?;
    }
    let strobes = plan.strobes.as_slice().len();
    append_total(alloc, &mut out, strobes, picked.len(), count_detected(hard))?;
    Ok(out)
}
