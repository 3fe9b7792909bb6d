// The next step of a run that goes as another.

ghost use Rattle.std.specs.Prelude.{◌≡◌, ◌+◌, ◌<◌, ◌↔◌, length, slice_get, Some, IfSome, IsTrue, MatchOption};
ghost use Rattle.std.specs.Option.{option_map};
ghost use Rattle.process_code.specs.RunEnds.{act_by};
ghost use Rattle.process_code.specs.declared.state.StepTaken.{StepTaken as Taken};
ghost use Rattle.process_table.specs.Known.{read_told};
ghost use Rattle.known_steps.specs.Known.{read_now, ReadsAlike, stands_behind, IsKnownAt, PartsAt};

use crate::values::same_read;
use four_value::Vec4;
use process_code::{ProcState, RunEnd, StepAct, StepTaken};
use v_design::Values;

/// A step that a process takes next: the line of its statement, what it does, and where the process stands behind it.
#[derive(Clone, Copy)]
pub struct KnownStep<'r> {
    pub line: u32,
    pub act: StepAct,
    pub next: &'r ProcState,
}

/// The value that a step reads, among the values of all objects, if it reads one.
fn read_now<V: Values>(values: &V, act: StepAct) -> Option<Vec4>
    requires { IfSome (read_told (act_by act)) (λ object. object < length (V.values values.now)) }
    ensures { result ≡ read_now (V.values values.now) (act_by act) }
{
    match act {
        StepAct::Read(object) => Some(values.value(object)),
        StepAct::Write(_) => None,
        StepAct::Append(_) => None,
        StepAct::Inner => None,
    }
}

/// Whether a step that was taken reads now what it read then.
fn reads_alike<V: Values>(values: &V, step: &StepTaken) -> bool
    requires { IfSome (read_told (act_by step.now.act)) (λ object. object < length (V.values values.now)) }
    ensures { IsTrue result ↔ ReadsAlike (V.values values.now) step.now }
{
    let read = read_now(values, step.act);
    same_read(read, step.read)
}

/// The step of a place in a run that has ended, if it has one.
pub fn step_at<'r>(run: &'r RunEnd, place: usize) -> Option<&'r StepTaken>
    ensures { option_map (λ step. step.now) result ≡ slice_get run.now.steps place }
{
    let steps = run.steps.as_slice();
    if place < steps.len() {
        Some(&steps[place])
    } else {
        None
    }
}

/// Where the process stands behind the step of a place in a run.
fn stands_behind<'r>(run: &'r RunEnd, place: usize) -> &'r ProcState
    requires { place < length run.now.steps }
    ensures { result.now ≡ stands_behind run.now place }
{
    match run.steps.as_slice().get(place + 1) {
        Some(step) => &step.state,
        None => &run.state,
    }
}

/// The step of a place in a run that has ended, if another process in the midst of a run would take it there too: none where the run has no such step, or where it read another value
/// there than is to be read now.
pub fn known_step<'r, V: Values>(run: &'r RunEnd, place: usize, values: &V) -> Option<KnownStep<'r>>
    requires { (one : Taken) → slice_get run.now.steps place ≡ Some one → IfSome (read_told (act_by one.act)) (λ object. object < length (V.values values.now)) }
    ensures { MatchOption result (PartsAt (V.values values.now) run.now place) (λ known. IsKnownAt (V.values values.now) run.now place known.line known.act known.next.now) }
{
    let Some(step) = step_at(run, place) else {
        return None;
    };
    let alike = reads_alike(values, step);
    if !alike {
        return None;
    }
    let next = stands_behind(run, place);
    Some(KnownStep {
        line: step.line,
        act: step.act,
        next,
    })
}
