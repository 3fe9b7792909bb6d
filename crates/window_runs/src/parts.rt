// The runs in some of a window's phases.

ghost use Rattle.std.specs.Prelude.{◌≡◌, ◌<◌, ◌≤◌, ℕ, ◌++◌, Some, length, slice_get};
ghost use Rattle.std.specs.List.Sorted.{IsNonDecreasingBy};
ghost use Rattle.process_code.specs.declared.state.RunEnd.{RunEnd};
ghost use Rattle.window_runs.specs.RunsByProcess.{run_phase};
ghost use Rattle.window_runs.specs.Through.{runs_through};

use process_code::RunEnd;

/// How many of some runs, which come in ascending order of their phases, are in the phases up to one, and in that.
fn count_through(runs: &[RunEnd], phase: u32) -> usize
    requires { IsNonDecreasingBy run_phase runs.now }
    ensures within { result ≤ length runs.now }
    ensures before { (place : ℕ) (run : RunEnd) → place < result → slice_get runs.now place ≡ Some run → run.phase ≤ phase }
    ensures behind { (place : ℕ) (run : RunEnd) → result ≤ place → slice_get runs.now place ≡ Some run → phase < run.phase }
{
    runs.partition_point(|run| run.phase <= phase)
}

/// The runs in the phases after one, up to another and in that, among some that come in ascending order of their phases.
pub fn runs_between(runs: &[RunEnd], after: u32, through: u32) -> &[RunEnd]
    requires rise { IsNonDecreasingBy run_phase runs.now }
    requires order { after ≤ through }
    ensures { runs_through after runs.now ++ result.now ≡ runs_through through runs.now }
{
    let first = count_through(runs, after);
    let end = count_through(runs, through);
    &runs[first..end]
}
