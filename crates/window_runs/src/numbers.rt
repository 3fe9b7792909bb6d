// The phases of a window, numbered through.

ghost use Rattle.std.specs.Prelude.{◌≡◌, ◌+◌, ◌<◌, ◌^◌, All, map};
ghost use Rattle.window_runs.specs.RunsByProcess.{run_phase, numbered_from};

use process_code::RunEnd;

/// Numbers the phases of some runs on from so many phases before them.
pub fn number_from(runs: &mut Vec<RunEnd>, phases: u32)
    requires { All (λ run. run_phase run + phases < 2 ^ 32) runs.old.items }
    ensures { runs.new.items ≡ map (numbered_from phases) runs.old.items }
{
    'runs: for place in 0..runs.len() {
        let run = &mut runs[place];
        run.phase += phases;
    }
}
