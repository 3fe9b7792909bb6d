// A run that is followed, with what it shows of what is asked.

ghost use Rattle.std.specs.Prelude.{◌≡◌, ◌≤◌, ◌^◌, IfOk, OnOk, Some, None};
ghost use Rattle.v_design.specs.PlainDesigns.{design_of};
ghost use Rattle.v_design.specs.Views.{machine_with};
ghost use Rattle.cert_text.specs.Views.{run_line_said};
ghost use Rattle.cert_runs.specs.Asking.{IsAskedOf, race_asked, bound_asked};
ghost use Rattle.cert_runs.specs.AskedRuns.{FollowsAsked, IsAsked, KeepsAsked, SeesBefore, SeesLast, ShowsKept, TellsShown, asked_time};
ghost use Rattle.cert_runs.specs.Samples.{slot_time};

use crate::asked::{Asked, Shown};
use crate::follow::CertRun;
use crate::samples::{keep_before, keep_until};
use crate::search::Search;
use cert_text::RunLine;
use kept_samples::Sample;
use net_graph::Graph;
use std::alloc::Global;
use std::mem;
use std::sync::ledger::Ledger;
use v_design::{Design, Fault};
use vf_base::{NoMemory, Steps};

/// A run that the lines of a certificate go through, what is asked of it, and what it has shown of that: what has been found of a claimed race, and the watched
/// bits at the strobes that it has passed.
///
/// After a call that answered `false` or ran out of memory, and after `show`, it isn't to be used again.
#[derive(Drop)]
pub(crate) struct AskedRun<'d, 'a> {
    pub(crate) run: CertRun<'d>,
    pub(crate) search: Search<'a>,
    pub(crate) samples: Vec<Sample>,
}

/// The time, in steps, of the slot that a line begins; 0 for a line that begins none.
fn slot_time(line: RunLine) -> u64
    ensures { result ≡ slot_time (run_line_said line) }
{
    match line {
        RunLine::Slot(time) => time,
        RunLine::Phase(_) => 0,
        RunLine::Steps(_, _) => 0,
        RunLine::Updates(_, _) => 0,
    }
}

/// Whether a race is claimed.
fn claims_race(asked: Asked<'_>) -> bool
    ensures { result ≡ race_asked asked.entry }
{
    match asked {
        Asked::Samples { .. } => false,
        Asked::Conflict { .. } => true,
        Asked::Nothing => true,
    }
}

impl<'d, 'a> AskedRun<'d, 'a> {
    /// A run of a design before its first line, good or under a fault, of which something is asked; it goes to a time, in steps.
    ///
    /// # Errors
    ///
    /// Want of memory.
    pub(crate) fn new(
        alloc: Global,
        design: &'d Design,
        graph: &'d Graph<'d>,
        fault: Option<Fault>,
        asked: Asked<'a>,
        bound: u64,
    ) -> Result<AskedRun<'d, 'a>, NoMemory>
        requires graph { graph.now.design.now ≡ design.now }
        requires asked { IsAskedOf (design_of design.now) asked }
        requires bound { bound_asked asked ≡ Some bound }
        ensures before { IfOk result (KeepsAsked (machine_with design.now fault) None) }
        ensures asked { IfOk result (λ run. run.search.asked ≡ asked.entry) }
    {
        let run = CertRun::new(alloc, design, graph, fault, claims_race(asked), bound)?;
        let search = Search {
            alloc,
            asked,
            found: None,
        };
        Ok(AskedRun {
            run,
            search,
            samples: Vec::new(alloc),
        })
    }

    /// The strobes before a time, in steps, that the run hasn't passed see where it stands.
    fn see_before(&mut self, time: u64) -> Result<(), NoMemory>
        requires { IsAsked self.old }
        ensures { OnOk result (SeesBefore time self.old self.new) }
    {
        match self.search.asked {
            Asked::Samples {
                watched,
                strobes,
                ..
            } => {
                keep_before(
                    self.search.alloc,
                    watched,
                    strobes,
                    time,
                    &self.run.replaying,
                    &mut self.samples,
                )?;
                Ok(())
            }
            Asked::Conflict { .. } => Ok(()),
            Asked::Nothing => Ok(()),
        }
    }

    /// The strobes up to the bound that the run hasn't passed see where it stands.
    fn see_last(&mut self) -> Result<(), NoMemory>
        requires { IsAsked self.old }
        ensures { OnOk result (SeesLast self.old self.new) }
    {
        match self.search.asked {
            Asked::Samples {
                bound,
                watched,
                strobes,
            } => {
                keep_until(
                    self.search.alloc,
                    watched,
                    strobes,
                    bound,
                    &self.run.replaying,
                    &mut self.samples,
                )?;
                Ok(())
            }
            Asked::Conflict { .. } => Ok(()),
            Asked::Nothing => Ok(()),
        }
    }

    /// Takes a line of the run. The answer is whether it is followed.
    ///
    /// # Errors
    ///
    /// Want of memory.
    pub(crate) fn follow<L: Ledger>(
        &mut self,
        line: RunLine,
        steps: &mut Steps<L>,
    ) -> Result<bool, NoMemory>
        requires run { IsAsked self.old }
        requires low { asked_time self.old ≤ 2 ^ 63 }
        ensures { IfOk result (λ went. FollowsAsked (run_line_said line) went self.old self.new) }
    {
        replay_laws::races_are_looked_for();
        self.see_before(slot_time(line))?;
        let went = self.run.follow(&mut self.search, line, steps)?;
        Ok(went)
    }

    /// What the run has shown, which is taken out of it.
    fn take_shown(&mut self) -> Shown
        ensures { ShowsKept self.old.search self.old.samples.items result }
    {
        match self.search.asked {
            Asked::Samples { .. } => {
                let samples = mem::replace(&mut self.samples, Vec::new(self.search.alloc));
                Shown::Samples(samples)
            }
            Asked::Conflict { .. } => Shown::Conflict(self.search.found),
            Asked::Nothing => Shown::Nothing,
        }
    }

    /// What the run shows where it may be left, which is where it is through to its bound.
    ///
    /// # Errors
    ///
    /// Want of memory.
    pub(crate) fn show(&mut self) -> Result<Option<Shown>, NoMemory>
        requires { IsAsked self.old }
        ensures { IfOk result (λ shown. TellsShown shown self.old) }
    {
        replay_laws::races_are_looked_for();
        self.see_last()?;
        if !self.run.is_through(&mut self.search)? {
            return Ok(None);
        }
        let shown = self.take_shown();
        Ok(Some(shown))
    }
}
