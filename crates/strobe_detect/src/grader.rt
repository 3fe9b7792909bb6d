// The grader of a fault.

ghost use Rattle.std.specs.Prelude.{◌≡◌, ℕ, List, [], ◌∷◌, ◌++◌, map, length, IsTrue, IsSome, ◌↔◌, None};
ghost use Rattle.vf_base.specs.Lists.{AllHold};
ghost use Rattle.v_design.specs.Grades.{Samples, is_hard, is_possible, some_sample, samples, verdict_by};
ghost use Rattle.v_design.specs.Grades.{verdict as verdict_of};
ghost use Rattle.vf_base.specs.Base.{watched_bit};
ghost use Rattle.strobe_detect.specs.Firsts.{first_time};
ghost use Rattle.strobe_detect.specs.Verdicts.{verdict_view};

use crate::compare::{Shown, compare};
use crate::kept::compare_kept;
use four_value::Bit;
use std::marker::Model;
use v_design::Values;
use vf_base::WatchBit;

/// What the strobes say of a fault: the time, in steps, of the first strobe with a hard detection, else of the first with a possible one.
#[derive(Clone, Copy, PartialEq, Eq, Debug)]
pub enum Grade {
    Detected(u64),
    Possible(u64),
    Undetected,
}

/// Collects the verdict of a fault, strobe by strobe. Contracts see the watched bits and the times of the first hard and the first possible strobe.
#[derive(Drop)]
pub struct Grader<'w> {
    watched: &'w [WatchBit],
    hard: Option<u64>,
    possible: Option<u64>,
}

impl<'w> Model for Grader<'w> {
    ghost use Rattle.std.specs.Prelude.{map};
    ghost use Rattle.vf_base.specs.Base.{watched_bit};
    ghost use Rattle.strobe_detect.specs.Graders.{GraderState};

    ghost Value = { GraderState };

    ghost view = { λ g. record { watched = map watched_bit g.watched.now; hard = g.hard; possible = g.possible } };
}

impl<'w> Grader<'w> {
    ghost use Rattle.strobe_detect.specs.Graders.{IsWatched, IsShown, shown_at};

    /// A grader that was shown no strobe yet.
    pub fn new(watched: &'w [WatchBit]) -> Grader<'w>
        ensures state { result ≡ record { watched = map watched_bit watched.now; hard = None; possible = None } }
        ensures shown { (good faulty : Samples) → IsShown good faulty [] result }
    {
        Grader {
            watched,
            hard: None,
            possible: None,
        }
    }

    /// A grader that was shown strobes before, of which none had a hard detection, and this one, whose time is in steps, was the first with a possible one, if one was.
    pub fn again(watched: &'w [WatchBit], possible: Option<u64>) -> Grader<'w>
        ensures { result ≡ record { watched = map watched_bit watched.now; hard = None; possible = possible } }
    {
        Grader {
            watched,
            hard: None,
            possible,
        }
    }

    /// The time, in steps, of the first strobe with a possible detection, if there was one.
    pub fn possible(&self) -> Option<u64>
        ensures { result ≡ self.now.possible }
    {
        self.possible
    }

    /// Shows the values of both machines at a strobe, whose time is in steps. The answer says whether a hard detection stands.
    pub fn strobe<A: Values, B: Values>(&mut self, time: u64, good: &A, faulty: &B) -> bool
        requires good { AllHold (IsWatched (A.values good.now)) self.old.watched }
        requires faulty { AllHold (IsWatched (B.values faulty.now)) self.old.watched }

        // Each first time stays, and else this strobe's comes.
        ensures state { self.new ≡ shown_at time (samples self.old.watched (A.values good.now)) (samples self.old.watched (B.values faulty.now)) self.old }
        ensures shown { (g f : Samples) (strobes : List ℕ) → IsShown g f strobes self.old → samples self.old.watched (A.values good.now) ≡ g time →
            samples self.old.watched (B.values faulty.now) ≡ f time → IsShown g f (strobes ++ time ∷ []) self.new }
        ensures stands { IsTrue result ↔ IsSome self.new.hard }
    {
        let shown = compare(self.watched, good, faulty);
        self.note(time, shown)
    }

    /// Shows the watched bits that were kept of the good machine, and the values of the faulty machine, at a strobe, whose time is in steps.
    /// The answer says whether a hard detection stands.
    pub fn strobe_kept<B: Values>(&mut self, time: u64, good: &[Bit], faulty: &B) -> bool
        requires kept { length good.now ≡ length self.old.watched }
        requires faulty { AllHold (IsWatched (B.values faulty.now)) self.old.watched }

        // Each first time stays, and else this strobe's comes.
        ensures state { self.new ≡ shown_at time good.now (samples self.old.watched (B.values faulty.now)) self.old }
        ensures stands { IsTrue result ↔ IsSome self.new.hard }
    {
        let shown = compare_kept(self.watched, good, faulty);
        self.note(time, shown)
    }

    /// Notes what a strobe shows. The answer says whether a hard detection stands.
    fn note(&mut self, time: u64, shown: Shown) -> bool
        ensures state { self.new ≡ record self.old { hard = first_time self.old.hard shown.hard time; possible = first_time self.old.possible shown.possible time } }
        ensures stands { IsTrue result ↔ IsSome self.new.hard }
    {
        self.hard = first_of(self.hard, shown.hard, time);
        self.possible = first_of(self.possible, shown.possible, time);
        self.hard.is_some()
    }

    /// The verdict of the samples that were shown.
    pub fn verdict(&self) -> Grade
        ensures state { verdict_view result ≡ verdict_by self.now.hard self.now.possible }
        ensures shown { (good faulty : Samples) (strobes : List ℕ) → IsShown good faulty strobes self.now → verdict_view result ≡ verdict_of good faulty strobes }
    {
        match (self.hard, self.possible) {
            (Some(time), _) => Grade::Detected(time),
            (None, Some(time)) => Grade::Possible(time),
            (None, None) => Grade::Undetected,
        }
    }
}

/// A time, in steps, that stands, else this one where it counts.
pub fn first_of(standing: Option<u64>, counts: bool, time: u64) -> Option<u64>
    ensures { result ≡ first_time standing counts time }
{
    match standing {
        Some(first) => Some(first),
        None if counts => Some(time),
        None => None,
    }
}
