// What a step does to a state, once what it reads is known.

ghost use Rattle.std.specs.Prelude.{◌≡◌, ◌≤◌, ◌<◌, ◌+◌, ◌-◌, ◌^◌, [], ◌∷◌, length, get_or, IsTrue, ◌↔◌, IfOk, OnOk, vec_capacity};
ghost use Rattle.process_code.specs.StatesOf.{KeepsRoom, IsStateOf, HasRoom};
ghost use Rattle.process_code.specs.declared.code.Code.{Code};
ghost use Rattle.process_code.specs.Points.{point_of, said_by, said_delay, stage_after, after_turn, SaysInner, SaysAwait, SaysFinished, HasUpdates, TakesUpdate};

use crate::state::{Did, ProcState, Stage};
use std::alloc::Global;
use vf_base::NoMemory;

impl ProcState {
    /// Whether the process is ready.
    pub fn is_ready(&self) -> bool
        ensures { IsTrue result ↔ (self.now.stage ≡ Stage.Ready) }
    {
        matches!(self.stage, Stage::Ready)
    }

    /// Makes a process ready that waits, sleeps or is postponed.
    pub fn wake(&mut self)
        ensures point { point_of self.new ≡ record (point_of self.old) { stage = Stage.Ready } }
        ensures state { (code : Code) → IsStateOf code self.old → IsStateOf code self.new }
        ensures room { (code : Code) → HasRoom code self.old → HasRoom code self.new }
    {
        self.stage = Stage::Ready;
    }

    /// The process goes on at a position.
    pub(crate) fn go(&mut self, position: usize) -> Did
        ensures point { point_of self.new ≡ record (point_of self.old) { position = position; operands = [] } }
        ensures says { said_by result ≡ SaysInner }
        ensures room { KeepsRoom self.old self.new }
    {
        self.position = position;
        self.operands.clear();
        Did::Inner
    }

    /// The process waits at a position, and goes on at another.
    pub(crate) fn begin_wait(&mut self, at: usize, position: usize) -> Did
        ensures point { point_of self.new ≡ record (point_of self.old) { stage = Stage.Waiting at; position = position; operands = [] } }
        ensures says { said_by result ≡ SaysAwait }
        ensures room { KeepsRoom self.old self.new }
    {
        self.stage = Stage::Waiting(at);
        self.position = position;
        self.operands.clear();
        Did::Await
    }

    /// The process is done.
    pub(crate) fn finish(&mut self) -> Did
        ensures point { point_of self.new ≡ record (point_of self.old) { stage = Stage.Done; operands = [] } }
        ensures says { said_by result ≡ SaysFinished }
        ensures room { KeepsRoom self.old self.new }
    {
        self.stage = Stage::Done;
        self.operands.clear();
        Did::Finished
    }

    /// The process is postponed for a delay of 0, else it sleeps. It goes on at a position.
    pub(crate) fn delay(&mut self, now: u64, delay: u32, position: usize) -> Did
        requires { now ≤ 2 ^ 63 }
        ensures point { point_of self.new ≡ record (point_of self.old) { stage = stage_after now delay; position = position; operands = [] } }
        ensures says { said_by result ≡ said_delay now delay }
        ensures room { KeepsRoom self.old self.new }
    {
        self.position = position;
        self.operands.clear();
        if delay == 0 {
            self.stage = Stage::Postponed;
            Did::Zero
        } else {
            let time = now + u64::from(delay);
            self.stage = Stage::Asleep(time);
            Did::Sleep(time)
        }
    }

    /// A turn of a `repeat`, or its end where no turn is left.
    pub(crate) fn turn(&mut self, number: usize, inner: usize, next: usize) -> Did
        requires { number < length self.old.counts.items }
        ensures point { point_of self.new ≡ after_turn (point_of self.old) number inner next (get_or self.old.counts.items number 0) }
        ensures says { said_by result ≡ SaysInner }
        ensures room { KeepsRoom self.old self.new }
    {
        let count = self.counts[number];
        if count == 0 {
            self.go(next)
        } else {
            self.counts[number] = count - 1;
            self.go(inner)
        }
    }

    /// The first of the updates that are left is written, or appended where the assignment is nonblocking.
    pub(crate) fn next_update(&mut self, now: u64) -> Did
        requires now { now ≤ 2 ^ 63 }
        requires some { HasUpdates self.old.updates.items }
        ensures takes { TakesUpdate now (point_of self.old) (point_of self.new) (said_by result) }
        ensures room { KeepsRoom self.old self.new }
    {
        self.operands.clear();
        match self.updates.remove(0) {
            None => Did::Inner,
            Some(update) => match self.delay {
                None => Did::Write(update),
                Some(delay) => Did::Later(update, now + u64::from(delay)),
            },
        }
    }

    /// The same state, in no more memory than it needs: no step may be taken from it.
    pub fn copy(&self, alloc: Global) -> Result<ProcState, NoMemory>
        ensures point { IfOk result (λ copy. point_of copy ≡ point_of self.now) }
        ensures state { IfOk result (λ copy. (code : Code) → IsStateOf code self.now → IsStateOf code copy) }
    {
        let operands = Vec::from_slice(alloc, &self.operands)?;
        let counts = Vec::from_slice(alloc, &self.counts)?;
        let updates = Vec::from_slice(alloc, &self.updates)?;
        Ok(ProcState {
            stage: self.stage,
            position: self.position,
            operands,
            counts,
            place: self.place,
            delay: self.delay,
            updates,
        })
    }

    /// Comes to stand where another state of its code stands. No memory is asked for where the room suffices.
    ///
    /// # Errors
    ///
    /// Want of memory; the state is then not to be used again.
    pub fn copy_from(&mut self, other: &ProcState) -> Result<(), NoMemory>
        ensures point { OnOk result (point_of self.new ≡ point_of other.now) }
        ensures state { OnOk result ((code : Code) → IsStateOf code self.old → IsStateOf code other.now → IsStateOf code self.new) }
        ensures room { OnOk result ((code : Code) → HasRoom code self.old → HasRoom code self.new) }
    {
        put_elements(&mut self.operands, &other.operands)?;
        put_elements(&mut self.counts, &other.counts)?;
        put_elements(&mut self.updates, &other.updates)?;
        self.stage = other.stage;
        self.position = other.position;
        self.place = other.place;
        self.delay = other.delay;
        Ok(())
    }
}

/// Puts elements in the place of those of a list, whose room stays.
fn put_elements<T: Copy>(list: &mut Vec<T>, elements: &[T]) -> Result<(), NoMemory>
    ensures items { OnOk result (list.new.items ≡ elements.now) }
    ensures room { vec_capacity list.old ≤ vec_capacity list.new }
{
    list.clear();
    list.extend_from_slice(elements)?;
    Ok(())
}
