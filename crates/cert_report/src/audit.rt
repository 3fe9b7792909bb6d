// What the audit of a certificate writes.

ghost use Rattle.std.specs.Prelude.{◌≡◌, ◌≤◌, ◌++◌, IfOk, codes, length};
ghost use Rattle.v_design.specs.Plain.{fault_of, grade_of};
ghost use Rattle.v_design.specs.PlainDesigns.{design_of, plan_of};
ghost use Rattle.v_design.specs.WellFormed.{IsPlanOf};
ghost use Rattle.grade_report.specs.Report.{fault_line};
ghost use Rattle.cert_report.specs.Audits.{no_text, audit_text, AuditHolds};

use fault_list::{append, append_number};
use grade_report::write_line;
use std::alloc::Global;
use std::sync::ledger::Ledger;
use v_design::{Design, Fault, Plan};
use vf_audit::{Audited, audit};
use vf_base::{End, NoMemory, Steps};

/// The most bytes of a certificate that is audited.
pub const MAX_CERT_BYTES: u64 = 16_777_216;

/// `yes`, and the line of a fault with its end.
fn yes_line(alloc: Global, design: &Design, fault: Fault, end: End) -> Result<Vec<u8>, NoMemory>
    ensures { IfOk result (λ text. text.items ≡ codes "yes " ++ fault_line (design_of design.now) (fault_of fault) (grade_of end)) }
{
    let mut text = Vec::new(alloc);
    append(&mut text, b"yes ")?;
    write_line(alloc, design, fault, &end, &mut text)?;
    Ok(text)
}

/// `no`, and the number of a line.
fn no_line(alloc: Global, number: u32) -> Result<Vec<u8>, NoMemory>
    ensures { IfOk result (λ text. text.items ≡ no_text number) }
{
    let mut text = Vec::new(alloc);
    append(&mut text, b"no ")?;
    append_number(alloc, &mut text, u64::from(number))?;
    append(&mut text, b"\n")?;
    Ok(text)
}

/// What the audit of a certificate finds: `yes` and its second line, or `no` and the number of its first line that fails.
///
/// # Errors
///
/// Want of memory.
pub fn audit_output<L: Ledger>(
    alloc: Global,
    design: &Design,
    plan: &Plan,
    cert: &[u8],
    steps: &mut Steps<L>,
) -> Result<Vec<u8>, NoMemory>
    requires plan { IsPlanOf (design_of design.now) (plan_of plan.now) }
    requires short { length cert.now ≤ MAX_CERT_BYTES }
    // Exactly what the certificate means over the design and the plan.
    ensures told { IfOk result (λ text. text.items ≡ audit_text (design_of design.now) (plan_of plan.now) cert.now) }
    // What a yes says holds in every order.
    ensures every_order { IfOk result (λ text. AuditHolds (design_of design.now) (plan_of plan.now) cert.now text.items) }
{
    let audited = audit(alloc, design, plan, cert, steps)?;
    match audited {
        Audited::Yes(fault, end) => yes_line(alloc, design, fault, end),
        Audited::No(number) => no_line(alloc, number),
    }
}
