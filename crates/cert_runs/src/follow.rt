// A run that the lines of a certificate go through.

ghost use Rattle.std.specs.Prelude.{◌≡◌, ◌≤◌, ◌^◌, IfOk, None};
ghost use Rattle.v_design.specs.Views.{machine_with};
ghost use Rattle.cert_text.specs.Views.{run_line_said};
ghost use Rattle.cert_runs.specs.Runs.{IsRun, KeepsRun, FollowsLine, TellsThrough, race_of, bound_of, time_of};
ghost use Rattle.cert_runs.specs.Searches.{LooksAtLast, LooksInRun};

use crate::search::Search;
use crate::turns::{ends_through, go_on};
use cert_replay::Replaying;
use cert_text::RunLine;
use net_graph::Graph;
use std::alloc::Global;
use std::sync::ledger::Ledger;
use v_design::{Design, Fault};
use vf_base::{NoMemory, Steps};

/// A run that the lines of a certificate go through, or that is still to begin.
///
/// After a call that answered `false` or ran out of memory, and after `is_through`, it isn't to be used again.
#[derive(Drop)]
pub(crate) struct CertRun<'d> {
    pub(crate) replaying: Replaying<'d>,
    pub(crate) begun: bool,
}

impl<'d> CertRun<'d> {
    /// A run of a design, good or under a fault, before its first line; it goes to a time, in steps. `race` tells whether a race is claimed of it.
    ///
    /// # Errors
    ///
    /// Want of memory.
    pub(crate) fn new(
        alloc: Global,
        design: &'d Design,
        graph: &'d Graph<'d>,
        fault: Option<Fault>,
        race: bool,
        bound: u64,
    ) -> Result<CertRun<'d>, NoMemory>
        requires { graph.now.design.now ≡ design.now }
        ensures before { IfOk result (KeepsRun (machine_with design.now fault) None) }
        ensures race { IfOk result (λ run. race_of run ≡ race) }
        ensures bound { IfOk result (λ run. bound_of run ≡ bound) }
    {
        let replaying = Replaying::begin(alloc, design, graph, fault, race, bound)?;
        Ok(CertRun {
            replaying,
            begun: false,
        })
    }

    /// Takes a line of the run. The answer is whether it is followed. The run's time is so low that no delay leads past 64 bits.
    /// A phase that the line ends is looked into for a claimed race.
    ///
    /// # Errors
    ///
    /// Want of memory.
    pub(crate) fn follow<L: Ledger>(
        &mut self,
        search: &mut Search<'_>,
        line: RunLine,
        steps: &mut Steps<L>,
    ) -> Result<bool, NoMemory>
        requires run { IsRun self.old }
        requires low { time_of self.old ≤ 2 ^ 63 }
        ensures goes { IfOk result (λ went. FollowsLine (run_line_said line) went self.old self.new) }
        ensures looks { IfOk result (λ went. LooksInRun (run_line_said line) went self.old search.old search.new) }
    {
        if self.begun {
            let went = go_on(&mut self.replaying, search, line, steps)?;
            return Ok(went);
        }
        if line != RunLine::Slot(0) {
            return Ok(false);
        }
        self.begun = true;
        Ok(true)
    }

    /// Whether the run is through to its bound: it has begun, its last phase may end, and no further turn up to the bound is possible.
    /// The last phase is looked into for a claimed race.
    ///
    /// # Errors
    ///
    /// Want of memory.
    pub(crate) fn is_through(&mut self, search: &mut Search<'_>) -> Result<bool, NoMemory>
        requires { IsRun self.old }
        ensures tells { IfOk result (λ through. TellsThrough through self.old) }
        ensures looks { IfOk result (λ through. LooksAtLast through self.old search.old search.new) }
    {
        if !self.begun {
            return Ok(false);
        }
        let through = ends_through(&mut self.replaying, search)?;
        Ok(through)
    }
}
