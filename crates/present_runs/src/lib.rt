//! What a process does in the midst of a run: what the run's steps so far left it doing (processes by IEEE 1364-2001, clause 9).
//!
//! A run of a process goes on while the process is ready, and no event but its own next step changes what a ready process does. So the state before each step of a run
//! is told by the state in which the run begins and by the steps before. The function here does nothing when it runs; its contract is the law.
#![tactic(auto)]

ghost use Rattle.present_runs.specs.PresentRuns.{PresentRunsLead};

/// As long as the last run of a process in a phase goes on, the process does what the run's steps left it doing, whatever other events happened since.
pub fn present_runs_lead()
    ensures { PresentRunsLead }
{}
