// The certificate of a fault.

ghost use Rattle.std.specs.Prelude.{◌≡◌, Some, IfOk};
ghost use Rattle.v_design.specs.Grades.{grade};
ghost use Rattle.v_design.specs.Plain.{fault_of, grade_of};
ghost use Rattle.v_design.specs.PlainDesigns.{design_of, plan_of};
ghost use Rattle.v_design.specs.WellFormed.{IsPlanOf};
ghost use Rattle.grade_laws.specs.Grading.{IsGoodRun};
ghost use Rattle.fault_grade.specs.Benches.{IsBench, bench_design, bench_plan};
ghost use Rattle.fault_grade.specs.Samples.{samples_kept};
ghost use Rattle.fault_grade.specs.Stops.{race_if};
ghost use Rattle.vf_certify.specs.Answers.{IsCertificate, IsCertified, IsRead, NoLoop};

use crate::lines::append_lines;
use cert_text::append_head;
use fault_grade::{Bench, GoodRun, GoodSamples, grade_fault, run_good};
use net_graph::Graph;
use std::alloc::Global;
use std::sync::ledger::Ledger;
use v_design::{Design, Fault, Plan};
use vf_base::{End, NoMemory, Steps};

/// A certificate, or the time, in steps, at which the good machine is hyperactive before a race of its own.
#[derive(Drop)]
pub enum Certified {
    Cert(Vec<u8>),
    GoodLoop(u64),
}

/// The certificate of a fault by how its grading ends.
fn certificate<L: Ledger>(
    alloc: Global,
    bench: &Bench<'_>,
    fault: Fault,
    end: End,
    steps: &mut Steps<L>,
) -> Result<Vec<u8>, NoMemory>
    requires { IsBench bench.now }
    ensures { IfOk result (λ text. IsCertificate (bench_design bench.now) (bench_plan bench.now) (fault_of fault) (grade_of end) text.items) }
{
    let mut out = Vec::new(alloc);
    append_head(alloc, &mut out, bench.design, fault, end)?;
    append_lines(alloc, bench, fault, end, &mut out, steps)?;
    Ok(out)
}

/// The certificate of a fault, beside what the good machine showed.
fn certify_beside<L: Ledger>(
    alloc: Global,
    bench: &Bench<'_>,
    good: &GoodSamples,
    fault: Fault,
    steps: &mut Steps<L>,
) -> Result<Certified, NoMemory>
    requires bench { IsBench bench.now }
    requires good { IsGoodRun (bench_design bench.now) (bench_plan bench.now) (samples_kept good.now) (race_if good.now.race) }
    ensures certified { IfOk result (IsCertified (bench_design bench.now) (bench_plan bench.now) (fault_of fault)) }
    ensures read { IfOk result (IsRead (bench_design bench.now) (bench_plan bench.now) (fault_of fault)) }
    ensures no_loop { IfOk result (NoLoop (bench_design bench.now) (bench_plan bench.now)) }
{
    cert_text::certificates_are_read();
    race_laws::races_name_parts();
    let end = grade_fault(alloc, bench, good, fault, steps)?;
    let text = certificate(alloc, bench, fault, end, steps)?;
    Ok(Certified::Cert(text))
}

/// The certificate of a fault: the line of its grade, and the first runs that show it.
///
/// # Errors
///
/// Want of memory.
pub fn certify<L: Ledger>(
    alloc: Global,
    design: &Design,
    plan: &Plan,
    fault: Fault,
    steps: &mut Steps<L>,
) -> Result<Certified, NoMemory>
    requires { IsPlanOf (design_of design.now) (plan_of plan.now) }
    ensures certified { IfOk result (IsCertified (design_of design.now) (plan_of plan.now) (fault_of fault)) }
    // The text is read back as a valid certificate of this fault and its claim.
    ensures read { IfOk result (IsRead (design_of design.now) (plan_of plan.now) (fault_of fault)) }
    // There is a certificate only where the good machine doesn't loop.
    ensures no_loop { IfOk result (NoLoop (design_of design.now) (plan_of plan.now)) }
{
    let graph = Graph::new(alloc, design)?;
    let bench = Bench {
        design,
        graph: &graph,
        plan,
    };
    let run = run_good(alloc, &bench, steps)?;
    match run {
        GoodRun::Loop(time) => Ok(Certified::GoodLoop(time)),
        GoodRun::Shown(good) => {
            let certified = certify_beside(alloc, &bench, &good, fault, steps)?;
            Ok(certified)
        }
    }
}
