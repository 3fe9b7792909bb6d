// How many findings end in each way.

ghost use Rattle.std.specs.Prelude.{◌≡◌};
ghost use Rattle.v_design.specs.Plain.{grade_of};
ghost use Rattle.grade_report.specs.Report.{is_detected, is_possible, is_undetected, is_race, is_hyper};
ghost use Rattle.v_design.specs.Findings.{count_ended};

use vf_base::{End, Finding};

/// Whether a finding is a detection.
fn is_detected(finding: &Finding) -> bool
    ensures { result ≡ is_detected (grade_of finding.now.end) }
{
    matches!(finding.end, End::Detected(_))
}

/// Whether a finding is a possible detection.
fn is_possible(finding: &Finding) -> bool
    ensures { result ≡ is_possible (grade_of finding.now.end) }
{
    matches!(finding.end, End::Possible(_))
}

/// Whether a finding says that its fault is undetected.
fn is_undetected(finding: &Finding) -> bool
    ensures { result ≡ is_undetected (grade_of finding.now.end) }
{
    matches!(finding.end, End::Undetected)
}

/// Whether a finding is a race.
fn is_race(finding: &Finding) -> bool
    ensures { result ≡ is_race (grade_of finding.now.end) }
{
    matches!(finding.end, End::Race(_, _))
}

/// Whether a finding is a loop of the faulty machine.
fn is_hyper(finding: &Finding) -> bool
    ensures { result ≡ is_hyper (grade_of finding.now.end) }
{
    matches!(finding.end, End::Hyper(_))
}

/// How many findings are detections.
pub fn count_detected(findings: &[Finding]) -> usize
    ensures { result ≡ count_ended is_detected findings.now }
{
    findings
        .iter()
        .filter(|finding| is_detected(finding))
        .count()
}

/// How many findings are possible detections.
pub fn count_possible(findings: &[Finding]) -> usize
    ensures { result ≡ count_ended is_possible findings.now }
{
    findings
        .iter()
        .filter(|finding| is_possible(finding))
        .count()
}

/// How many faults are undetected.
pub fn count_undetected(findings: &[Finding]) -> usize
    ensures { result ≡ count_ended is_undetected findings.now }
{
    findings
        .iter()
        .filter(|finding| is_undetected(finding))
        .count()
}

/// How many findings are races.
pub fn count_race(findings: &[Finding]) -> usize
    ensures { result ≡ count_ended is_race findings.now }
{
    findings.iter().filter(|finding| is_race(finding)).count()
}

/// How many findings are loops.
pub fn count_hyper(findings: &[Finding]) -> usize
    ensures { result ≡ count_ended is_hyper findings.now }
{
    findings.iter().filter(|finding| is_hyper(finding)).count()
}
