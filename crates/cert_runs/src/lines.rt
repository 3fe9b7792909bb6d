// The lines of a run, one after the other.

ghost use Rattle.std.specs.Prelude.{◌≡◌, ◌≤◌, ◌^◌, length, IfOk, option_map};
ghost use Rattle.text_lines.specs.Plain.{plain_texts};
ghost use Rattle.cert_laws.specs.Valid.{line_of, lines_said};
ghost use Rattle.cert_text.specs.Views.{run_line_said};
ghost use Rattle.cert_runs.specs.AskedRuns.{IsAsked, IsAskedRun, asked_time};
ghost use Rattle.cert_runs.specs.Along.{run_in};
ghost use Rattle.cert_runs.specs.Lines.{GoesAlong, TakesLine};

use crate::asked_run::AskedRun;
use cert_text::{CertLine, RunLine, read_cert_line};
use std::sync::ledger::Ledger;
use vf_base::{NoMemory, Steps};

/// How far the lines of a run go.
#[derive(Clone, Copy, PartialEq, Eq, Debug)]
pub(crate) enum Followed {
    /// So many lines are followed, and then a line of the run isn't.
    Breaks(usize),
    /// So many lines are followed, and then there is no line of a run.
    Stops(usize),
}

/// What becomes of a line.
#[derive(Clone, Copy, PartialEq, Eq, Debug)]
pub(crate) enum Taken {
    /// The run goes on by it.
    Goes,
    /// It is a line of a run, and isn't followed.
    Breaks,
    /// It is no line of a run.
    Stops,
}

/// The line of a run that a line of a certificate says, if it says one.
pub(crate) fn run_line_of(line: &[u8]) -> Option<RunLine>
    ensures { option_map run_line_said result ≡ run_in (line_of line.now) }
{
    match read_cert_line(line) {
        None => None,
        Some(said) => match said {
            CertLine::Run(line) => Some(line),
            CertLine::Good => None,
            CertLine::Faulty => None,
            CertLine::End => None,
        },
    }
}

/// Takes a line of a certificate.
fn take_line<L: Ledger>(
    run: &mut AskedRun<'_, '_>,
    line: &[u8],
    steps: &mut Steps<L>,
) -> Result<Taken, NoMemory>
    requires run { IsAsked run.old }
    requires low { asked_time run.old ≤ 2 ^ 63 }
    ensures { IfOk result (λ taken. TakesLine (line_of line.now) taken run.old run.new) }
{
    let Some(line) = run_line_of(line) else {
        return Ok(Taken::Stops);
    };
    if !run.follow(line, steps)? {
        return Ok(Taken::Breaks);
    }
    Ok(Taken::Goes)
}

/// Follows the lines of a run in front of some lines of a certificate, of which there are at most 16,777,216.
///
/// # Errors
///
/// Want of memory.
pub(crate) fn follow_lines<L: Ledger>(
    run: &mut AskedRun<'_, '_>,
    lines: &[&[u8]],
    steps: &mut Steps<L>,
) -> Result<Followed, NoMemory>
    requires run { IsAskedRun 0 run.old }
    requires few { length lines.now ≤ 16777216 }
    ensures { IfOk result (λ followed. GoesAlong (lines_said (plain_texts lines.now)) followed run.old run.new) }
{
    replay_laws::times_grow();
    let mut at = 0;
    'lines: while at < lines.len() {
        match take_line(run, lines[at], steps)? {
            Taken::Goes => at += 1,
            Taken::Breaks => return Ok(Followed::Breaks(at)),
            Taken::Stops => return Ok(Followed::Stops(at)),
        }
    }
    Ok(Followed::Stops(at))
}
