// The end that both runs of a certificate show.

ghost use Rattle.std.specs.Prelude.{◌≡◌, option_map, Option};
ghost use Rattle.v_design.specs.Grades.{Verdict, Judged};
ghost use Rattle.v_design.specs.Plain.{grade_of};
ghost use Rattle.kept_samples.specs.Kept.{samples_kept};
ghost use Rattle.cert_laws.specs.Replays.{Replay};
ghost use Rattle.cert_laws.specs.Valid.{same_verdict};
ghost use Rattle.vf_base.specs.declared.finding.Side.TheVariants.{Good, Faulty};
ghost use Rattle.vf_audit.specs.Strobes.{verdict_in};
ghost use Rattle.vf_audit.specs.Sides.{ShowsFor};
ghost use Rattle.vf_audit.specs.Cases.{case_design, case_plan, case_fault, case_claim};
ghost use Rattle.vf_audit.specs.Ends.{samples_in, pair_in, shown_on, JudgedBy, EndBy};

use crate::case::Case;
use crate::strobes::verdict_of;
use cert_runs::Shown;
use cert_text::Claim;
use kept_samples::Sample;
use vf_base::{End, Pair, Side};

/// The samples that a run shows, if it shows such.
fn samples_of(shown: &Shown) -> &[Sample]
    ensures { samples_kept result.now ≡ samples_in shown.now }
{
    match shown {
        Shown::Samples(samples) => samples.as_slice(),
        Shown::Conflict(_) => &[],
        Shown::Nothing => &[],
    }
}

/// The pair that a run shows, if it shows one.
fn pair_of(shown: &Shown) -> Option<Pair>
    ensures { result ≡ pair_in shown.now }
{
    match shown {
        Shown::Samples(_) => None,
        Shown::Conflict(pair) => *pair,
        Shown::Nothing => None,
    }
}

/// What the run of a side shows.
fn shown_on<'s>(side: Side, good: &'s Shown, faulty: &'s Shown) -> &'s Shown
    ensures { result.now ≡ shown_on side good.now faulty.now }
{
    match side {
        Side::Good => good,
        Side::Faulty => faulty,
    }
}

/// The end of a claimed verdict, where the samples of both runs give it.
fn judged_end(claimed: End, good: &Shown, faulty: &Shown) -> Option<End>
    ensures { (given : Verdict) → grade_of claimed ≡ Judged given →
        JudgedBy (same_verdict (verdict_in (samples_in good.now) (samples_in faulty.now)) given) claimed result }
{
    let found = verdict_of(samples_of(good), samples_of(faulty));
    if found == claimed {
        Some(claimed)
    } else {
        None
    }
}

/// The end of a claimed race of a side, where its run shows it.
fn raced_end(side: Side, good: &Shown, faulty: &Shown) -> Option<End>
    ensures { result ≡ option_map (End.Race side) (pair_in (shown_on side good.now faulty.now)) }
{
    match pair_of(shown_on(side, good, faulty)) {
        None => None,
        Some(pair) => Some(End::Race(side, pair)),
    }
}

/// The end that is claimed, where both runs show it: a verdict by their samples, a race by the pair that its run shows.
pub(crate) fn end_of(case: &Case<'_>, good: &Shown, faulty: &Shown) -> Option<End>
    ensures { (good_run faulty_run : Option Replay) →
        ShowsFor (case_design case.now) (case_plan case.now) (case_fault case.now) (case_claim case.now) Good good_run good.now →
        ShowsFor (case_design case.now) (case_plan case.now) (case_fault case.now) (case_claim case.now) Faulty faulty_run faulty.now →
        EndBy (case_design case.now) (case_plan case.now) (case_fault case.now) (case_claim case.now) good_run faulty_run result }
{
    match case.claim {
        Claim::Detected(time) => judged_end(End::Detected(time), good, faulty),
        Claim::Possible(time) => judged_end(End::Possible(time), good, faulty),
        Claim::Undetected => judged_end(End::Undetected, good, faulty),
        Claim::Race(race) => raced_end(race.side, good, faulty),
    }
}
