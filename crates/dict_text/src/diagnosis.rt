// The text of a diagnosis.

ghost use Rattle.std.specs.Prelude.{◌≡◌, ◌++◌, ◌∷◌, [], map, count_by, codes, OnOk, IfOk};
ghost use Rattle.vf_base.specs.Lists.{joined, zip_with};
ghost use Rattle.v_design.specs.Plain.{fault_of};
ghost use Rattle.v_design.specs.PlainDesigns.{design_of, plan_of};
ghost use Rattle.kept_samples.specs.Kept.{samples_kept};
ghost use Rattle.dict_text.specs.Texts.{fault_word, Fits, found_of, found_line, is_flagged, is_exact, is_possible, is_excluded, good_line, diagnose_total, diagnose_text};
ghost use Rattle.dict_text.specs.Dictionaries.{entry_kept, IsDictionary};
ghost use Rattle.dict_text.specs.Merged.{Merges, AllMerge};
ghost use Rattle.dict_text.specs.Views.{fit_view, found_view};

use crate::dictionary::Dictionary;
use crate::fit::{Fit, fit_of};
use crate::line::{append_count, append_fault};
use fault_list::append;
use kept_samples::{Kept, Sample};
use std::alloc::Global;
use v_design::{Design, Fault, Plan};
use vf_base::NoMemory;

/// What a diagnosis says of a fault: its grading has an end, or its samples fit so.
#[derive(Clone, Copy, Debug)]
enum Found {
    Flagged,
    Fits(Fit),
}

/// What is said of a fault.
fn found_of(observed: &[Sample], good: &[Sample], kept: &Kept) -> Found
    requires { Merges (samples_kept good.now) (entry_kept kept.now) }
    ensures { found_view result ≡ found_of (samples_kept observed.now) (samples_kept good.now) (entry_kept kept.now) }
{
    match kept.end {
        Some(_) => Found::Flagged,
        None => Found::Fits(fit_of(observed, good, kept.differs.as_slice())),
    }
}

/// What is said of each fault.
fn find_all(
    alloc: Global,
    observed: &[Sample],
    good: &[Sample],
    entries: &[Kept],
) -> Result<Vec<Found>, NoMemory>
    requires { AllMerge (samples_kept good.now) entries.now }
    ensures { IfOk result (λ founds. map found_view founds.items ≡ map (found_of (samples_kept observed.now) (samples_kept good.now)) (map entry_kept entries.now)) }
{
    let mut founds = Vec::with_capacity(alloc, entries.len())?;
    'entries: for kept in entries {
        founds.push(found_of(observed, good, kept))?;
    }
    Ok(founds)
}

/// Whether a fault has an end.
fn is_flagged(found: &Found) -> bool
    ensures { result ≡ is_flagged (found_view found.now) }
{
    matches!(found, Found::Flagged)
}

/// Whether a fault's samples fit exactly.
fn is_exact(found: &Found) -> bool
    ensures { result ≡ is_exact (found_view found.now) }
{
    matches!(found, Found::Fits(Fit::Exact))
}

/// Whether a fault's samples fit possibly.
fn is_possible(found: &Found) -> bool
    ensures { result ≡ is_possible (found_view found.now) }
{
    matches!(found, Found::Fits(Fit::Possible))
}

/// Whether a fault's samples contradict what was observed.
fn is_excluded(found: &Found) -> bool
    ensures { result ≡ is_excluded (found_view found.now) }
{
    matches!(found, Found::Fits(Fit::Contradicted))
}

/// How many faults have an end.
fn count_flagged(founds: &[Found]) -> usize
    ensures { result ≡ count_by (λ found. is_flagged (found_view found)) founds.now }
{
    founds.iter().filter(|found| is_flagged(found)).count()
}

/// How many faults fit exactly.
fn count_exact(founds: &[Found]) -> usize
    ensures { result ≡ count_by (λ found. is_exact (found_view found)) founds.now }
{
    founds.iter().filter(|found| is_exact(found)).count()
}

/// How many faults fit possibly.
fn count_possible(founds: &[Found]) -> usize
    ensures { result ≡ count_by (λ found. is_possible (found_view found)) founds.now }
{
    founds.iter().filter(|found| is_possible(found)).count()
}

/// How many faults are contradicted.
fn count_excluded(founds: &[Found]) -> usize
    ensures { result ≡ count_by (λ found. is_excluded (found_view found)) founds.now }
{
    founds.iter().filter(|found| is_excluded(found)).count()
}

/// Adds a line of a fault and a word behind it.
fn append_said(
    alloc: Global,
    out: &mut Vec<u8>,
    design: &Design,
    fault: Fault,
    word: &[u8],
) -> Result<(), NoMemory>
    ensures { OnOk result (out.new.items ≡ out.old.items ++ (fault_word (design_of design.now) (fault_of fault) ++ word.now ++ 10 ∷ [])) }
{
    append_fault(alloc, out, design, fault)?;
    append(out, word)?;
    append(out, b"\n")?;
    Ok(())
}

/// Adds the line of a fault, none where it is contradicted.
fn append_found(
    alloc: Global,
    out: &mut Vec<u8>,
    design: &Design,
    fault: Fault,
    found: Found,
) -> Result<(), NoMemory>
    ensures { OnOk result (out.new.items ≡ out.old.items ++ found_line (fault_word (design_of design.now) (fault_of fault)) (found_view found)) }
{
    match found {
        Found::Flagged => append_said(alloc, out, design, fault, b" flagged"),
        Found::Fits(Fit::Exact) => append_said(alloc, out, design, fault, b" exact"),
        Found::Fits(Fit::Possible) => append_said(alloc, out, design, fault, b" possible"),
        Found::Fits(Fit::Contradicted) => Ok(()),
    }
}

/// Adds the lines of all faults.
fn append_founds(
    alloc: Global,
    out: &mut Vec<u8>,
    design: &Design,
    faults: &[Fault],
    founds: &[Found],
) -> Result<(), NoMemory>
    ensures { OnOk result (out.new.items ≡ out.old.items
        ++ joined (zip_with (λ fault found. found_line (fault_word (design_of design.now) fault) found) (map fault_of faults.now) (map found_view founds.now))) }
{
    'founds: for (fault, found) in faults.iter().zip(founds) {
        append_found(alloc, out, design, *fault, *found)?;
    }
    Ok(())
}

/// Adds the line of a good machine whose samples fit so, none where they are contradicted.
fn append_good_fit(out: &mut Vec<u8>, fit: Fit) -> Result<(), NoMemory>
    ensures { OnOk result (out.new.items ≡ out.old.items ++ found_line (codes "good") (Fits (fit_view fit))) }
{
    match fit {
        Fit::Exact => append(out, b"good exact\n"),
        Fit::Possible => append(out, b"good possible\n"),
        Fit::Contradicted => Ok(()),
    }
}

/// Adds the line of the good machine, none where it has a race.
fn append_good(
    out: &mut Vec<u8>,
    raced: bool,
    observed: &[Sample],
    good: &[Sample],
) -> Result<(), NoMemory>
    ensures { OnOk result (out.new.items ≡ out.old.items ++ good_line raced (samples_kept observed.now) (samples_kept good.now)) }
{
    if raced {
        return Ok(());
    }
    append_good_fit(out, fit_of(observed, good, &[]))
}

/// Adds the line of the totals.
fn append_total(alloc: Global, out: &mut Vec<u8>, founds: &[Found]) -> Result<(), NoMemory>
    ensures { OnOk result (out.new.items ≡ out.old.items ++ diagnose_total (map found_view founds.now)) }
{
    append_count(alloc, out, b"total ", founds.len() as u64)?;
    append_count(alloc, out, b" exact ", count_exact(founds) as u64)?;
    append_count(alloc, out, b" possible ", count_possible(founds) as u64)?;
    append_count(alloc, out, b" excluded ", count_excluded(founds) as u64)?;
    append_count(alloc, out, b" flagged ", count_flagged(founds) as u64)?;
    append(out, b"\n")?;
    Ok(())
}

/// The text of a diagnosis: how the good machine and each listed fault fit what was observed, and the totals.
///
/// # Errors
///
/// Want of memory.
pub fn diagnose(
    alloc: Global,
    design: &Design,
    plan: &Plan,
    dictionary: &Dictionary,
    observed: &[Sample],
) -> Result<Vec<u8>, NoMemory>
    requires { IsDictionary (design_of design.now) (plan_of plan.now) dictionary.now }
    ensures { IfOk result (λ text. text.items
        ≡ diagnose_text (design_of design.now) (plan_of plan.now).faults dictionary.now.raced (samples_kept observed.now) (samples_kept dictionary.now.good) (map entry_kept dictionary.now.faults)) }
{
    let good = dictionary.good.as_slice();
    let founds = find_all(alloc, observed, good, dictionary.faults.as_slice())?;
    let mut out = Vec::new(alloc);
    append(&mut out, b"vfault diagnose 1\n")?;
    append_good(&mut out, dictionary.raced, observed, good)?;
    append_founds(alloc, &mut out, design, plan.faults.as_slice(), &founds)?;
    append_total(alloc, &mut out, &founds)?;
    Ok(out)
}
