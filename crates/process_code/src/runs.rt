// The ends of process runs.

ghost use Rattle.std.specs.Prelude.{◌≡◌, IfOk};
ghost use Rattle.std.specs.List.{AllZip};
ghost use Rattle.process_code.specs.Points.{point_of};
ghost use Rattle.process_code.specs.RunEnds.{IsSameStep, StandsIn, told_by};
ghost use Rattle.process_code.specs.StatesOf.{IsStateOf};
ghost use Rattle.process_code.specs.declared.code.Code.{Code};

use crate::state::{RunEnd, StepTaken};
use std::alloc::Global;
use vf_base::{NoMemory, Seq};

impl RunEnd {
    /// The same end of the same run.
    pub fn copy(&self, alloc: Global) -> Result<RunEnd, NoMemory>
        ensures run { IfOk result (λ copy. (copy.phase ≡ self.now.phase) × (copy.process ≡ self.now.process)) }
        ensures point { IfOk result (λ copy. point_of copy.state ≡ point_of self.now.state) }
        ensures later { IfOk result (λ copy. copy.later ≡ self.now.later) }
        ensures writes { IfOk result (λ copy. copy.writes ≡ self.now.writes) }
        ensures steps { IfOk result (λ copy. AllZip IsSameStep self.now.steps copy.steps) }
        ensures state { IfOk result (λ copy. (code : Code) → IsStateOf code self.now.state → IsStateOf code copy.state) }
        ensures stands { IfOk result (λ copy. (code : Code) → StandsIn code self.now → StandsIn code copy) }
        ensures told { IfOk result (λ copy. (code : Code) → told_by code copy ≡ told_by code self.now) }
    {
        let state = self.state.copy(alloc)?;
        let later = listed(alloc, self.later.as_slice())?;
        let writes = listed(alloc, self.writes.as_slice())?;
        let steps = copied_steps(alloc, self.steps.as_slice())?;
        Ok(RunEnd {
            phase: self.phase,
            process: self.process,
            state,
            later,
            writes,
            steps,
        })
    }
}

impl StepTaken {
    /// The same step.
    pub fn copy(&self, alloc: Global) -> Result<StepTaken, NoMemory>
        ensures { IfOk result (λ copy. IsSameStep self.now copy) }
    {
        let state = self.state.copy(alloc)?;
        Ok(StepTaken {
            line: self.line,
            act: self.act,
            read: self.read,
            state,
        })
    }
}

/// The list of the same steps.
fn copied_steps(alloc: Global, steps: &[StepTaken]) -> Result<Seq<StepTaken>, NoMemory>
    ensures { IfOk result (λ list. AllZip IsSameStep steps.now list) }
{
    let mut copies = Vec::with_capacity(alloc, steps.len())?;
    'steps: for step in steps {
        let copy = step.copy(alloc)?;
        copies.push(copy)?;
    }
    Ok(Seq::from_vec(copies))
}

/// The list of the same elements.
fn listed<T: Copy>(alloc: Global, elements: &[T]) -> Result<Seq<T>, NoMemory>
    ensures { IfOk result (λ list. list ≡ elements.now) }
{
    let mut copy = Vec::with_capacity(alloc, elements.len())?;
    copy.extend_from_slice(elements)?;
    Ok(Seq::from_vec(copy))
}
