// The lines of a certificate, as they are written.

ghost use Rattle.std.specs.Prelude.{◌≡◌, ◌++◌, ◌∷◌, [], OnOk, codes};
ghost use Rattle.std.specs.Fmt.{decimal};
ghost use Rattle.v_design.specs.Plain.{fault_of, grade_of};
ghost use Rattle.v_design.specs.PlainDesigns.{design_of};
ghost use Rattle.fault_list.specs.RoundTrip.{HasNumber};
ghost use Rattle.grade_report.specs.Report.{fault_line};
ghost use Rattle.cert_laws.specs.Written.{run_line_text, cert_line_text};
ghost use Rattle.cert_text.specs.Views.{run_line_said, cert_line_plain};
ghost use Rattle.cert_text.specs.Fits.{RunFits, LineFits, GradeFits};

use crate::line::{CertLine, RunLine};
use fault_list::{append, append_number};
use grade_report::write_line;
use std::alloc::Global;
use v_design::{Design, Fault};
use vf_base::{End, NoMemory};

/// Adds a line of a word and a number.
fn append_numbered(
    alloc: Global,
    out: &mut Vec<u8>,
    word: &[u8],
    number: u64,
) -> Result<(), NoMemory>
    ensures { OnOk result (out.new.items ≡ out.old.items ++ (word.now ++ decimal number ++ 10 ∷ [])) }
{
    append(out, word)?;
    append_number(alloc, out, number)?;
    append(out, b"\n")?;
    Ok(())
}

/// Adds a line of a letter, a process and a count.
fn append_counted(
    alloc: Global,
    out: &mut Vec<u8>,
    word: &[u8],
    process: u64,
    count: u64,
) -> Result<(), NoMemory>
    ensures { OnOk result (out.new.items ≡ out.old.items ++ (word.now ++ decimal process ++ 32 ∷ decimal count ++ 10 ∷ [])) }
{
    append(out, word)?;
    append_number(alloc, out, process)?;
    append_numbered(alloc, out, b" ", count)?;
    Ok(())
}

/// Adds a line of a run.
///
/// # Errors
///
/// Want of memory.
pub fn append_run_line(alloc: Global, out: &mut Vec<u8>, line: RunLine) -> Result<(), NoMemory>
    ensures text { OnOk result (out.new.items ≡ out.old.items ++ run_line_text (run_line_said line)) }
    ensures fits { RunFits (run_line_said line) }
{
    match line {
        RunLine::Slot(time) => append_numbered(alloc, out, b"slot ", time),
        RunLine::Phase(number) => append_numbered(alloc, out, b"phase ", number),
        RunLine::Steps(process, count) => append_counted(alloc, out, b"p ", process, count),
        RunLine::Updates(process, count) => append_counted(alloc, out, b"u ", process, count),
    }
}

/// Adds a line behind the first two.
///
/// # Errors
///
/// Want of memory.
pub fn append_cert_line(alloc: Global, out: &mut Vec<u8>, line: CertLine) -> Result<(), NoMemory>
    ensures text { OnOk result (out.new.items ≡ out.old.items ++ cert_line_text (cert_line_plain line)) }
    ensures fits { LineFits (cert_line_plain line) }
{
    match line {
        CertLine::Good => append(out, b"good\n"),
        CertLine::Faulty => append(out, b"faulty\n"),
        CertLine::Run(line) => append_run_line(alloc, out, line),
        CertLine::End => append(out, b"end\n"),
    }
}

/// Adds the first two lines: that it is a certificate, and the line of its fault with how the grading ended.
///
/// # Errors
///
/// Want of memory.
pub fn append_head(
    alloc: Global,
    out: &mut Vec<u8>,
    design: &Design,
    fault: Fault,
    end: End,
) -> Result<(), NoMemory>
    ensures text { OnOk result (out.new.items ≡ out.old.items ++ (codes "vfault cert 1" ++ 10 ∷ fault_line (design_of design.now) (fault_of fault) (grade_of end))) }
    ensures site { HasNumber (fault_of fault).site }
    ensures fits { GradeFits (grade_of end) }
{
    append(out, b"vfault cert 1\n")?;
    write_line(alloc, design, fault, &end, out)?;
    Ok(())
}
