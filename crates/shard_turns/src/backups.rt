// Copies of a round's shards in slots, and the board on which visits to these are drawn.

ghost use Rattle.std.specs.Prelude.{◌≡◌, ◌+◌, ◌<◌, ◌≤◌, ◌^◌, IfNone, IfOk, IfSome, IsTrue, OnOk};
ghost use Rattle.verdict_words.specs.JobSeats.{slots_of};
ghost use Rattle.verdict_words.specs.Seats.{view, claims_of};
ghost use Rattle.verdict_words.specs.Slots.{joined_calls, no_calls};
ghost use Rattle.verdict_words.specs.Views.{first_view, joined, lent_share, newcomer, with_claim, with_none, without_lent};

use copy_shard::Shard;
use std::alloc::Global;
use v_design::World;
use verdict_words::{Board, JobSeat, Jobs, Seat, Taken};
use vf_base::NoMemory;

/// Copies of shards in slots, one for each shard's number, for workers that are through with their own in a round; and a board on which visits to the slots are drawn, each once.
#[derive(Drop)]
pub struct Backups<N: World> {
    pub(crate) jobs: Jobs<Shard<N>>,
    visits: Board<N>,
    ghost slots: { claims_of visits ≤ slots_of jobs },
}

/// What a worker steps with on the backups of a round. It has no bytes.
#[derive(Drop)]
pub struct BackupSeat<N: World> {
    pub(crate) job: JobSeat<Shard<N>>,
    pub(crate) visits: Seat<N>,
}

/// How many slots so many shards have: there is one at least.
fn slots_for(shards: u32) -> u32
    ensures some { 0 < result }
    ensures room { shards ≤ result }
{
    if shards == 0 { 1 } else { shards }
}

impl<N: World> Backups<N> {
    ghost use Rattle.shard_turns.specs.Backups.{AddUp, Empties, IsBackupSeat, Leaves, StaysSeat, slot_calls, visited_by, visits_in};

    /// Empty slots for so many shards, none of them visited, and the first seat.
    ///
    /// # Errors
    ///
    /// Want of memory.
    pub fn new(alloc: Global, shards: u32) -> Result<(Backups<N>, BackupSeat<N>), NoMemory>
        ensures { IfOk result (λ made. (visits_in made.0 ≡ shards) × IsBackupSeat made.0 made.1 × (view made.1.visits ≡ first_view)
            × (slot_calls made.1 ≡ no_calls)) }
    {
        let (jobs, job) = Jobs::<Shard<N>>::new(alloc, slots_for(shards))?;
        let (visits, seat) = Board::<N>::new(alloc, 0, shards)?;
        let backups = Backups { jobs, visits };
        Ok((backups, BackupSeat { job, visits: seat }))
    }

    /// The seat, and a new one with the share of one worker, which has drawn no visit.
    pub fn split(&self, seat: BackupSeat<N>) -> (BackupSeat<N>, BackupSeat<N>)
        requires own { IsBackupSeat self.now seat }
        requires share { (view seat.visits).calls + lent_share < (view seat.visits).share }
        ensures own { IsBackupSeat self.now result.0 × IsBackupSeat self.now result.1 }
        ensures old { view result.0.visits ≡ without_lent (view seat.visits) }
        ensures new { view result.1.visits ≡ newcomer (view seat.visits) }
        ensures calls { (slot_calls result.0 ≡ slot_calls seat) × (slot_calls result.1 ≡ no_calls) }
    {
        let BackupSeat { job, visits } = seat;
        let (job, other) = self.jobs.split(job);
        let (visits, new) = self.visits.split(visits);
        (
            BackupSeat { job, visits },
            BackupSeat {
                job: other,
                visits: new,
            },
        )
    }

    /// One seat in place of two, with the visits and the shares of both.
    pub fn join(&self, one: BackupSeat<N>, other: BackupSeat<N>) -> BackupSeat<N>
        requires one { IsBackupSeat self.now one }
        requires other { IsBackupSeat self.now other }
        ensures own { IsBackupSeat self.now result }
        ensures both { view result.visits ≡ joined (view one.visits) (view other.visits) }
        ensures calls { slot_calls result ≡ joined_calls (slot_calls one) (slot_calls other) }
    {
        let BackupSeat { job, visits } = one;
        let BackupSeat {
            job: its_job,
            visits: its_visits,
        } = other;
        let job = self.jobs.join(job, its_job);
        let visits = self.visits.join(visits, its_visits);
        BackupSeat { job, visits }
    }

    /// Leaves a copy in the slot of a shard's number, in place of what lies there. Where another seat holds the slot, the copy is let go of.
    pub fn leave(&self, seat: BackupSeat<N>, number: u32, copy: Shard<N>) -> BackupSeat<N>
        requires own { IsBackupSeat self.now seat }
        requires number { number < visits_in self.now }
        ensures stays { StaysSeat self.now seat result }
        ensures left { Leaves number copy (slot_calls seat) (slot_calls result) }
    {
        let BackupSeat { job, visits } = seat;
        let (job, taken) = self.jobs.take(job, number);
        match taken {
            Taken::Held => BackupSeat { job, visits },
            Taken::Got(_) => {
                let job = self.jobs.put(job, number, Some(copy));
                BackupSeat { job, visits }
            }
        }
    }

    /// Empties the slot of a shard's number, and answers what lay in it; nothing where another seat holds the slot.
    pub fn take(&self, seat: BackupSeat<N>, number: u32) -> (BackupSeat<N>, Option<Shard<N>>)
        requires own { IsBackupSeat self.now seat }
        requires number { number < visits_in self.now }
        ensures stays { StaysSeat self.now seat result.0 }
        ensures taken { Empties number result.1 (slot_calls seat) (slot_calls result.0) }
    {
        let BackupSeat { job, visits } = seat;
        let (job, taken) = self.jobs.take(job, number);
        match taken {
            Taken::Held => (BackupSeat { job, visits }, None),
            Taken::Got(found) => {
                let job = self.jobs.put(job, number, None);
                (BackupSeat { job, visits }, found)
            }
        }
    }

    /// Draws the number of the slot that is to be visited next, which no other call draws; none where all were drawn.
    pub fn next_visit(&self, seat: BackupSeat<N>) -> (BackupSeat<N>, Option<u32>)
        requires own { IsBackupSeat self.now seat }
        requires share { (view seat.visits).calls < (view seat.visits).share }
        ensures own { IsBackupSeat self.now result.0 }
        ensures some { IfSome result.1 (λ number. (number < visits_in self.now) × ((view seat.visits).calls ≤ number)
            × (view result.0.visits ≡ with_claim number (view seat.visits))) }
        ensures none { IfNone result.1 (view result.0.visits ≡ with_none (view seat.visits)) }
        ensures calls { slot_calls result.0 ≡ slot_calls seat }
    {
        let BackupSeat { job, visits } = seat;
        let (visits, number) = self.visits.claim(visits);
        (BackupSeat { job, visits }, number)
    }

    /// Lets go of all copies. The seat has the whole share, which it has exactly where all other seats were joined into it; where it was told that no slot is left, each slot was
    /// visited once.
    ///
    /// # Errors
    ///
    /// Want of memory.
    pub fn end(self, alloc: Global, seat: BackupSeat<N>) -> Result<(), NoMemory>
        requires own { IsBackupSeat self seat }
        requires whole { (view seat.visits).share ≡ 2 ^ 62 }
        requires dry { IsTrue (view seat.visits).dry }
        ensures { OnOk result (AddUp (visits_in self) (visited_by seat)) }
    {
        let Backups { jobs, visits } = self;
        drop(jobs);
        let BackupSeat {
            job: _,
            visits: seat,
        } = seat;
        let _closed = visits.close(alloc, seat)?;
        Ok(())
    }
}
