// Slots in which threads leave jobs for one another.

ghost use Rattle.std.specs.Prelude.{◌≡◌, ◌+◌, ◌<◌, IfOk};

use atomic_table::{Seat, Table};
use std::alloc::Global;
use vf_base::NoMemory;

mod rule;

use rule::{Halves, Hold, Puts, Shelf, Takes};
pub use rule::{SlotCalls, SlotValue};

/// Slots for jobs, which threads share. Each slot has a word, which is 1 while the slot is at home and 0 while a seat holds it.
#[derive(Drop)]
pub struct Jobs<J: Drop> {
    table: Table<Option<J>, Hold<Option<J>>, u64, Shelf, Global>,
    slots: u32,
    ghost key: { table.shared.key ≡ slots },
    ghost words: { table.shared.table_id.words ≡ slots },
    ghost homes: { table.shared.table_id.slots ≡ slots },
    ghost some: { 0 < slots },
}

/// What a thread steps with on the jobs. It has no bytes.
#[derive(Drop)]
pub struct JobSeat<J> {
    seat: Seat<Option<J>, Hold<Option<J>>>,
}

/// What `take` answers.
#[derive(Drop)]
pub enum Taken<J> {
    /// The seat holds the slot now, and this lay in it.
    Got(Option<J>),
    /// Another seat held the slot.
    Held,
}

impl<J: Drop> Jobs<J> {
    ghost use Rattle.verdict_words.specs.JobSeats.{IsJobSeatOf, slots_of, calls_of, IsFree, HoldsSlot, MatchTaken};
    ghost use Rattle.verdict_words.specs.Slots.{no_calls, with_refusal, with_take, with_put, joined_calls};

    /// So many slots that all hold `None`, and a seat that holds no slot.
    pub fn new(alloc: Global, slots: u32) -> Result<(Jobs<J>, JobSeat<J>), NoMemory>
        requires { 0 < slots }
        ensures { IfOk result (λ made. (slots_of made.0 ≡ slots) × IsJobSeatOf made.0 made.1
            × IsFree made.1 × (calls_of made.1 ≡ no_calls)) }
    {
        let words = vec![in alloc; 1; slots as usize]?;
        let count = u64::from(slots);
        let (table, seat) = Table::vacant(alloc, words.as_slice(), slots as usize, &count)?;
        let jobs = Jobs { table, slots };
        Ok((jobs, JobSeat { seat }))
    }

    /// The seat, and a new one. It takes no memory.
    pub fn split(&self, seat: JobSeat<J>) -> (JobSeat<J>, JobSeat<J>)
        requires own { IsJobSeatOf self.now seat }
        requires free { IsFree seat }
        ensures own { IsJobSeatOf self.now result.0 × IsJobSeatOf self.now result.1 }
        ensures free { IsFree result.0 × IsFree result.1 }
        ensures calls { (calls_of result.0 ≡ calls_of seat) × (calls_of result.1 ≡ no_calls) }
    {
        let JobSeat { seat: mut old } = seat;
        let new = self.table.shared.split_seat::<Halves>(&mut old);
        (JobSeat { seat: old }, JobSeat { seat: new })
    }

    /// One seat in place of two. It takes no memory.
    pub fn join(&self, one: JobSeat<J>, other: JobSeat<J>) -> JobSeat<J>
        requires one { IsJobSeatOf self.now one }
        requires other { IsJobSeatOf self.now other }
        requires free { IsFree one × IsFree other }
        ensures own { IsJobSeatOf self.now result }
        ensures free { IsFree result }
        ensures calls { calls_of result ≡ joined_calls (calls_of one) (calls_of other) }
    {
        let JobSeat { mut seat } = one;
        let JobSeat { seat: other } = other;
        self.table.shared.join_seat::<Halves>(&mut seat, other);
        JobSeat { seat }
    }

    /// Takes the slot and what lies in it, or answers `Held` exactly where a seat held the slot at that step. It takes no memory.
    ///
    /// Contracts count the times that the slot's word was found at 0, and so `Held` is answered after such a step alone; what was taken is in the list of what the seat took.
    pub fn take(&self, seat: JobSeat<J>, slot: u32) -> (JobSeat<J>, Taken<J>)
        requires own { IsJobSeatOf self.now seat }
        requires slot { slot < slots_of self.now }
        requires free { IsFree seat }
        ensures own { IsJobSeatOf self.now result.0 }
        ensures told { MatchTaken result.1 (λ job. HoldsSlot self.now result.0 slot) (IsFree result.0) }
        ensures calls { MatchTaken result.1 (λ job. calls_of result.0 ≡ with_take slot job (calls_of seat)) (calls_of result.0 ≡ with_refusal (calls_of seat)) }
    {
        let JobSeat { mut seat } = seat;
        let shared = &self.table.shared;
        let found = shared.compare_exchange::<Takes>(&mut seat, slot as usize, 1, 0);
        if found != 1 {
            return (JobSeat { seat }, Taken::Held);
        }
        let job = shared.exchange(&mut seat, slot as usize, None);
        (JobSeat { seat }, Taken::Got(job))
    }

    /// Leaves the job in the slot, and gives the slot back. What lay in the slot is dropped. It takes no memory.
    pub fn put(&self, seat: JobSeat<J>, slot: u32, job: Option<J>) -> JobSeat<J>
        requires own { IsJobSeatOf self.now seat }
        requires holds { HoldsSlot self.now seat slot }
        ensures own { IsJobSeatOf self.now result }
        ensures free { IsFree result }
        ensures calls { calls_of result ≡ with_put slot job (calls_of seat) }
    {
        let JobSeat { mut seat } = seat;
        let shared = &self.table.shared;
        drop(shared.exchange(&mut seat, slot as usize, job));
        shared.store::<Puts>(&mut seat, slot as usize, 1);
        JobSeat { seat }
    }
}
