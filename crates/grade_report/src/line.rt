// The line of a fault.

ghost use Rattle.std.specs.Prelude.{◌≡◌, ◌++◌, OnOk};
ghost use Rattle.vf_base.specs.Base.{reported_access, reported_pair};
ghost use Rattle.v_design.specs.Plain.{fault_of, grade_of};
ghost use Rattle.v_design.specs.PlainDesigns.{design_of};
ghost use Rattle.grade_report.specs.Report.{kind_text, counted, access_text, side_text, race_text, held_text, grade_text, fault_line};

use crate::object::append_object;
use fault_list::{append, append_number, write_site};
use std::alloc::Global;
use v_design::{Design, Fault};
use vf_base::{Access, AccessKind, End, NoMemory, Pair, Side};

/// The word of an access.
fn kind_word(kind: AccessKind) -> &'static [u8]
    ensures { result.now ≡ kind_text kind }
{
    match kind {
        AccessKind::Read => b"read",
        AccessKind::Write => b"write",
        AccessKind::Await => b"await",
        AccessKind::Ended => b"ended",
        AccessKind::Held => b"held",
        AccessKind::Settle => b"settle",
    }
}

/// Adds a word and a number.
#[tactic(auto, unfolding(crate::specs::Report::counted))]
pub fn append_count(
    alloc: Global,
    out: &mut Vec<u8>,
    word: &[u8],
    count: u64,
) -> Result<(), NoMemory>
    ensures { OnOk result (out.new.items ≡ out.old.items ++ counted word.now count) }
{
    append(out, word)?;
    append_number(alloc, out, count)?;
    Ok(())
}

/// Adds an access: its kind, its object, its process and its line.
fn append_access(
    alloc: Global,
    out: &mut Vec<u8>,
    design: &Design,
    access: Access,
) -> Result<(), NoMemory>
    ensures { OnOk result (out.new.items ≡ out.old.items ++ access_text (design_of design.now) (reported_access access)) }
{
    append(out, kind_word(access.kind))?;
    append(out, b" ")?;
    append_object(alloc, out, design, access.object)?;
    append_count(alloc, out, b" p", u64::from(access.process.0))?;
    append_count(alloc, out, b" l", u64::from(access.line))?;
    Ok(())
}

/// The words of the machine that a race is in.
fn side_words(side: Side) -> &'static [u8]
    ensures { result.now ≡ side_text side }
{
    match side {
        Side::Good => b" race good",
        Side::Faulty => b" race faulty",
    }
}

/// Adds a race: its side, its time and phase, and its accesses, the earlier one first.
fn append_race(
    alloc: Global,
    out: &mut Vec<u8>,
    design: &Design,
    side: Side,
    pair: &Pair,
) -> Result<(), NoMemory>
    ensures { OnOk result (out.new.items ≡ out.old.items ++ race_text (design_of design.now) side (reported_pair pair.now)) }
{
    append(out, side_words(side))?;
    append_count(alloc, out, b" ", pair.time)?;
    append_count(alloc, out, b".", u64::from(pair.phase))?;
    append(out, b" ")?;
    append_access(alloc, out, design, pair.first)?;
    append(out, b" ")?;
    append_access(alloc, out, design, pair.second)?;
    Ok(())
}

/// Adds how a grading ended.
fn append_end(alloc: Global, out: &mut Vec<u8>, design: &Design, end: &End) -> Result<(), NoMemory>
    ensures { OnOk result (out.new.items ≡ out.old.items ++ grade_text (design_of design.now) (grade_of end.now)) }
{
    match end {
        End::Detected(time) => append_count(alloc, out, b" detected ", *time),
        End::Possible(time) => append_count(alloc, out, b" possible ", *time),
        End::Undetected => append(out, b" undetected"),
        End::Race(side, pair) => append_race(alloc, out, design, *side, pair),
        End::Hyper(time) => append_count(alloc, out, b" hyper ", *time),
    }
}

/// The word of a fault's value.
fn held_word(value: bool) -> &'static [u8]
    ensures { result.now ≡ held_text value }
{
    if value { b" sa1" } else { b" sa0" }
}

/// Adds the line of a fault, with how its grading ended.
#[tactic(auto, unfolding(crate::specs::Report::fault_line))]
pub fn write_line(
    alloc: Global,
    design: &Design,
    fault: Fault,
    end: &End,
    out: &mut Vec<u8>,
) -> Result<(), NoMemory>
    ensures { OnOk result (out.new.items ≡ out.old.items ++ fault_line (design_of design.now) (fault_of fault) (grade_of end.now)) }
{
    write_site(alloc, design, fault.site, out)?;
    append(out, held_word(fault.value))?;
    append_end(alloc, out, design, end)?;
    append(out, b"\n")?;
    Ok(())
}
