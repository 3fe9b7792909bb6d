// What the strobes said of a fault so far.

ghost use Rattle.std.specs.Prelude.{◌≡◌, ◌++◌, ◌∷◌, [], length, map, IfOk, OnOk, None};
ghost use Rattle.vf_base.specs.Base.{watched_bit};
ghost use Rattle.vf_base.specs.Lists.{AllHold};
ghost use Rattle.v_design.specs.Grades.{is_hard, is_possible, some_sample, samples};
ghost use Rattle.kept_samples.specs.Plain.{sample_of, differing};
ghost use Rattle.strobe_detect.specs.Firsts.{first_time};
ghost use Rattle.strobe_detect.specs.Graders.{IsWatched};
ghost use Rattle.strobe_detect.specs.Verdicts.{verdict_view};
ghost use Rattle.fault_strobes.specs.Said.{SaysNothing, ends_there, keeps, said_at, verdict_said};
ghost use Rattle.fault_strobes.specs.Shown.{said_of};

use four_value::Bit;
use kept_samples::Sample;
use std::alloc::Global;
use strobe_detect::{Grade, Grader, shows_kept, watched_bits};
use v_design::Values;
use vf_base::{NoMemory, Seq, WatchBit};

/// What the strobes said of a fault so far.
#[derive(Drop)]
pub enum Strobed {
    /// They judge it, and none had a hard detection: the time, in steps, of the first one with a possible detection, if there was one.
    Judging(Option<u64>),
    /// Its samples are kept, those that differ from the good machine's, in order.
    Keeping(Vec<Sample>),
}

/// Whether the faulty machine shows a hard detection at a strobe, whose time is in steps, beside the watched bits of the good one. `possible` is the time of the first strobe
/// with a possible detection, if there was one.
fn judge<B: Values>(
    watched: &[WatchBit],
    time: u64,
    good: &[Bit],
    faulty: &B,
    possible: &mut Option<u64>,
) -> bool
    requires kept { length good.now ≡ length watched.now }
    requires watched { AllHold (IsWatched (B.values faulty.now)) (map watched_bit watched.now) }
    ensures hard { result ≡ some_sample is_hard good.now (samples (map watched_bit watched.now) (B.values faulty.now)) }
    ensures possible { possible.new ≡ first_time possible.old (some_sample is_possible good.now (samples (map watched_bit watched.now) (B.values faulty.now))) time }
{
    let mut grader = Grader::again(watched, *possible);
    let hard = grader.strobe_kept(time, good, faulty);
    *possible = grader.possible();
    hard
}

/// Keeps the watched bits that the faulty machine shows at a strobe, whose time is in steps, where they differ from those of the good one.
fn keep<B: Values>(
    alloc: Global,
    watched: &[WatchBit],
    time: u64,
    good: &[Bit],
    faulty: &B,
    differs: &mut Vec<Sample>,
) -> Result<(), NoMemory>
    requires kept { length good.now ≡ length watched.now }
    requires watched { AllHold (IsWatched (B.values faulty.now)) (map watched_bit watched.now) }
    ensures { OnOk result (map sample_of differs.new.items ≡ map sample_of differs.old.items ++
        differing (λ at. good.now) (record { time = time; bits = samples (map watched_bit watched.now) (B.values faulty.now) } ∷ [])) }
{
    let same = shows_kept(watched, good, faulty);
    if same {
        return Ok(());
    }
    let bits = watched_bits(alloc, watched, faulty)?;
    differs.push(Sample {
        time,
        bits: Seq::from_vec(bits),
    })?;
    Ok(())
}

impl Strobed {
    /// Whether the samples of the fault are kept.
    pub fn keeps(&self) -> bool
        ensures { result ≡ keeps (said_of self.now) }
    {
        match self {
            Strobed::Judging(_) => false,
            Strobed::Keeping(_) => true,
        }
    }

    /// Forgets what was said, as before the first strobe.
    pub fn forget(&mut self)
        ensures nothing { SaysNothing (said_of self.new) }
        ensures kind { keeps (said_of self.new) ≡ keeps (said_of self.old) }
    {
        match self {
            Strobed::Judging(possible) => *possible = None,
            Strobed::Keeping(differs) => differs.clear(),
        }
    }

    /// Shows one strobe more, whose time is in steps: the watched bits of the good machine, and the values of the faulty one. The answer says whether it ends the grading.
    ///
    /// # Errors
    ///
    /// Want of memory.
    pub fn strobe<B: Values>(
        &mut self,
        alloc: Global,
        watched: &[WatchBit],
        time: u64,
        good: &[Bit],
        faulty: &B,
    ) -> Result<bool, NoMemory>
        requires kept { length good.now ≡ length watched.now }
        requires watched { AllHold (IsWatched (B.values faulty.now)) (map watched_bit watched.now) }
        ensures ends { IfOk result (λ ends. ends ≡ ends_there good.now (samples (map watched_bit watched.now) (B.values faulty.now)) (said_of self.old)) }
        ensures said { OnOk result (said_of self.new ≡ said_at time good.now (samples (map watched_bit watched.now) (B.values faulty.now)) (said_of self.old)) }
    {
        match self {
            Strobed::Judging(possible) => Ok(judge(watched, time, good, faulty, possible)),
            Strobed::Keeping(differs) => {
                keep(alloc, watched, time, good, faulty, differs)?;
                Ok(false)
            }
        }
    }

    /// The verdict of strobes that ended no grading.
    pub fn verdict(&self) -> Grade
        ensures { verdict_view result ≡ verdict_said (said_of self.now) }
    {
        match self {
            Strobed::Judging(Some(time)) => Grade::Possible(*time),
            Strobed::Judging(None) => Grade::Undetected,
            Strobed::Keeping(_) => Grade::Undetected,
        }
    }
}
