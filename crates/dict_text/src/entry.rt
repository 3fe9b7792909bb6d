// The text of a dictionary.

ghost use Rattle.std.specs.Prelude.{◌≡◌, ◌++◌, map, count_by, OnOk, IfOk, None};
ghost use Rattle.vf_base.specs.Lists.{joined, zip_with};
ghost use Rattle.v_design.specs.Plain.{fault_of, grade_of};
ghost use Rattle.v_design.specs.PlainDesigns.{design_of, plan_of};
ghost use Rattle.kept_samples.specs.Kept.{samples_kept};
ghost use Rattle.dict_text.specs.Texts.{is_known, is_raced, is_looped, known_line, entry_by, entry_text, dict_total, dict_text};
ghost use Rattle.dict_text.specs.Dictionaries.{entry_kept};

use crate::dictionary::Dictionary;
use crate::line::{append_count, append_fault};
use crate::sample::append_samples;
use fault_list::append;
use grade_report::write_line;
use kept_samples::{Kept, Sample};
use std::alloc::Global;
use v_design::{Design, Fault, Plan};
use vf_base::{End, NoMemory};

/// Whether a fault has no end.
fn is_known(kept: &Kept) -> bool
    ensures { result ≡ is_known (entry_kept kept.now).end }
{
    matches!(kept.end, None)
}

/// Whether a fault ends by a race.
fn is_raced(kept: &Kept) -> bool
    ensures { result ≡ is_raced (entry_kept kept.now).end }
{
    matches!(kept.end, Some(End::Race(_, _)))
}

/// Whether a fault ends by a loop of its faulty machine.
fn is_looped(kept: &Kept) -> bool
    ensures { result ≡ is_looped (entry_kept kept.now).end }
{
    matches!(kept.end, Some(End::Hyper(_)))
}

/// How many faults have no end.
fn count_known(entries: &[Kept]) -> usize
    ensures { result ≡ count_by (λ kept. is_known (entry_kept kept).end) entries.now }
{
    entries.iter().filter(|kept| is_known(kept)).count()
}

/// How many faults end by a race.
fn count_raced(entries: &[Kept]) -> usize
    ensures { result ≡ count_by (λ kept. is_raced (entry_kept kept).end) entries.now }
{
    entries.iter().filter(|kept| is_raced(kept)).count()
}

/// How many faults end by a loop.
fn count_looped(entries: &[Kept]) -> usize
    ensures { result ≡ count_by (λ kept. is_looped (entry_kept kept).end) entries.now }
{
    entries.iter().filter(|kept| is_looped(kept)).count()
}

/// Adds the line of a fault without an end.
#[tactic(auto, unfolding(crate::specs::Texts::known_line))]
fn append_known_line(
    alloc: Global,
    out: &mut Vec<u8>,
    design: &Design,
    fault: Fault,
    count: u64,
) -> Result<(), NoMemory>
    ensures { OnOk result (out.new.items ≡ out.old.items ++ known_line (design_of design.now) (fault_of fault) count) }
{
    append_fault(alloc, out, design, fault)?;
    append_count(alloc, out, b" known ", count)?;
    append(out, b"\n")?;
    Ok(())
}

/// Adds a fault without an end: its line, and its samples that differ.
fn append_known(
    alloc: Global,
    out: &mut Vec<u8>,
    design: &Design,
    fault: Fault,
    differs: &[Sample],
) -> Result<(), NoMemory>
    ensures { OnOk result (out.new.items ≡ out.old.items ++ entry_by (design_of design.now) (fault_of fault) (samples_kept differs.now) None) }
{
    append_known_line(alloc, out, design, fault, differs.len() as u64)?;
    append_samples(alloc, out, b"", differs)?;
    Ok(())
}

/// Adds what the dictionary has of a fault.
fn append_entry(
    alloc: Global,
    out: &mut Vec<u8>,
    design: &Design,
    fault: Fault,
    kept: &Kept,
) -> Result<(), NoMemory>
    ensures { OnOk result (out.new.items ≡ out.old.items ++ entry_text (design_of design.now) (fault_of fault) (entry_kept kept.now)) }
{
    match &kept.end {
        Some(end) => write_line(alloc, design, fault, end, out),
        None => append_known(alloc, out, design, fault, kept.differs.as_slice()),
    }
}

/// Adds what the dictionary has of all faults.
fn append_entries(
    alloc: Global,
    out: &mut Vec<u8>,
    design: &Design,
    faults: &[Fault],
    entries: &[Kept],
) -> Result<(), NoMemory>
    ensures { OnOk result (out.new.items ≡ out.old.items ++ joined (zip_with (entry_text (design_of design.now)) (map fault_of faults.now) (map entry_kept entries.now))) }
{
    'entries: for (fault, kept) in faults.iter().zip(entries) {
        append_entry(alloc, out, design, *fault, kept)?;
    }
    Ok(())
}

/// Adds the line of the totals.
fn append_total(alloc: Global, out: &mut Vec<u8>, entries: &[Kept]) -> Result<(), NoMemory>
    ensures { OnOk result (out.new.items ≡ out.old.items ++ dict_total (map entry_kept entries.now)) }
{
    append_count(alloc, out, b"total ", entries.len() as u64)?;
    append_count(alloc, out, b" known ", count_known(entries) as u64)?;
    append_count(alloc, out, b" race ", count_raced(entries) as u64)?;
    append_count(alloc, out, b" hyper ", count_looped(entries) as u64)?;
    append(out, b"\n")?;
    Ok(())
}

/// The text of a dictionary: the good samples, each fault in list order, and the totals.
///
/// # Errors
///
/// Want of memory.
pub fn write_dict(
    alloc: Global,
    design: &Design,
    plan: &Plan,
    dictionary: &Dictionary,
) -> Result<Vec<u8>, NoMemory>
    ensures { IfOk result (λ text. text.items ≡ dict_text (design_of design.now) (plan_of plan.now).faults (samples_kept dictionary.now.good) (map entry_kept dictionary.now.faults)) }
{
    let entries = dictionary.faults.as_slice();
    let mut out = Vec::new(alloc);
    append(&mut out, b"vfault dict 1\n")?;
    append_samples(alloc, &mut out, b"good ", dictionary.good.as_slice())?;
    append_entries(alloc, &mut out, design, plan.faults.as_slice(), entries)?;
    append_total(alloc, &mut out, entries)?;
    Ok(out)
}
