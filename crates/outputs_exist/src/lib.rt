//! That outputs exist: reports, dictionaries, diagnoses, picked strobes and certificates, where the good machine doesn't loop, and the list of a design's faults
//! (slots by IEEE 1364-2001, clause 5).
//!
//! An output is defined by what it is the text of: the grades of all listed faults, their full grades, the first faults of their classes. Where the first run of the good
//! machine isn't hyperactive up to the plan's end before a race of its own there are such grades, and so there is each output; the list of a design's faults is always
//! there. The function does nothing when it runs; its contract is the law.
#![tactic(auto)]

ghost use Rattle.outputs_exist.specs.Existing.{ReportsExist, DictionaryOutputsExist, CertificatesExist, FaultsTextsExist};

pub use cert_report::{CertifyFault, MAX_CERT_BYTES, audit_output, certify_output};
pub use dict_report::{OutputFault, diagnose_output, dict_output, pick_output};
pub use plan_report::{Extent, ReportFault, plan_report};

/// Where the good machine never loops before a race of its own, there are the report on a text that spells a plan, each output over a dictionary, and the certificate of
/// each listed fault. No design is without the list of its faults.
pub fn outputs()
    ensures reports { ReportsExist }
    ensures over_dictionary { DictionaryOutputsExist }
    ensures certificates { CertificatesExist }
    ensures faults { FaultsTextsExist }
{
    grades_exist::grades();
    grades_exist::full_grades();
}
