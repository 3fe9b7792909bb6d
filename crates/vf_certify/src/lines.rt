// The lines behind the line of a grade.

ghost use Rattle.std.specs.Prelude.{◌≡◌, Some, is_some, OnOk};
ghost use Rattle.v_design.specs.Designs.{FlatDesign, TestPlan};
ghost use Rattle.v_design.specs.Plain.{fault_of, grade_of};
ghost use Rattle.cert_laws.specs.Claims.{Claim};
ghost use Rattle.cert_laws.specs.Valid.{side_bound, bound_of};
ghost use Rattle.cert_laws.specs.Written.{claim_as, lines_by};
ghost use Rattle.fault_grade.specs.Benches.{IsBench, bench_design, bench_plan};
ghost use Rattle.vf_certify.specs.Lines.{Adds};

use crate::run::append_bounded;
use cert_text::{CertLine, append_cert_line};
use fault_grade::Bench;
use std::alloc::Global;
use std::sync::ledger::Ledger;
use v_design::Fault;
use vf_base::{End, NoMemory, Side, Steps};

/// The bound of a side's run where a race of a side at a time is claimed.
fn bound_by_race(named: Side, side: Side, time: u64) -> Option<u64>
    ensures { result ≡ side_bound named side time }
{
    match named {
        Side::Good => match side {
            Side::Good => Some(time),
            Side::Faulty => None,
        },
        Side::Faulty => match side {
            Side::Good => None,
            Side::Faulty => Some(time),
        },
    }
}

/// The time to which the run of a side is written, in a plan to a last time.
fn bound_of(end: End, last: u64, side: Side) -> Option<u64>
    ensures { (design : FlatDesign) (plan : TestPlan) (claim : Claim) → plan.end ≡ last → claim_as design (grade_of end) ≡ Some claim → result ≡ bound_of plan claim side }
{
    match end {
        End::Detected(time) => Some(time),
        End::Possible(_) => Some(last),
        End::Undetected => Some(last),
        End::Race(named, pair) => bound_by_race(named, side, pair.time),
        End::Hyper(_) => None,
    }
}

/// Whether an end claims something: a loop claims nothing.
fn has_claim(end: End) -> bool
    ensures { (design : FlatDesign) → result ≡ is_some (claim_as design (grade_of end)) }
{
    match end {
        End::Detected(_) => true,
        End::Possible(_) => true,
        End::Undetected => true,
        End::Race(_, _) => true,
        End::Hyper(_) => false,
    }
}

/// Adds both runs and the end of the certificate of a fault whose grade claims something.
fn append_claimed<L: Ledger>(
    alloc: Global,
    bench: &Bench<'_>,
    fault: Fault,
    end: End,
    out: &mut Vec<u8>,
    steps: &mut Steps<L>,
) -> Result<(), NoMemory>
    requires { IsBench bench.now }
    ensures { OnOk result ((claim : Claim) → claim_as (bench_design bench.now) (grade_of end) ≡ Some claim →
        Adds (lines_by (bench_design bench.now) (bench_plan bench.now) (fault_of fault) (Some claim)) out.old.items out.new.items) }
{
    let last = bench.plan.end;
    append_cert_line(alloc, out, CertLine::Good)?;
    append_bounded(
        alloc,
        bench,
        None,
        bound_of(end, last, Side::Good),
        out,
        steps,
    )?;
    append_cert_line(alloc, out, CertLine::Faulty)?;
    append_bounded(
        alloc,
        bench,
        Some(fault),
        bound_of(end, last, Side::Faulty),
        out,
        steps,
    )?;
    append_cert_line(alloc, out, CertLine::End)?;
    Ok(())
}

/// Adds all lines behind the line of a grade.
pub(crate) fn append_lines<L: Ledger>(
    alloc: Global,
    bench: &Bench<'_>,
    fault: Fault,
    end: End,
    out: &mut Vec<u8>,
    steps: &mut Steps<L>,
) -> Result<(), NoMemory>
    requires { IsBench bench.now }
    ensures { OnOk result (Adds (lines_by (bench_design bench.now) (bench_plan bench.now) (fault_of fault) (claim_as (bench_design bench.now) (grade_of end))) out.old.items out.new.items) }
{
    if has_claim(end) {
        append_claimed(alloc, bench, fault, end, out, steps)?;
        Ok(())
    } else {
        append_cert_line(alloc, out, CertLine::End)?;
        Ok(())
    }
}
