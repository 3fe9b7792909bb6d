// The calls on a board.

ghost use Rattle.std.specs.Prelude.{◌≡◌, ◌+◌, ◌^◌, ◌<◌, ◌≤◌, IfOk, IfSome, IfNone, Contains, ℕ};
ghost use Rattle.vf_base.specs.Base.{fault_number};
ghost use Rattle.verdict_words.specs.Codes.{IsCode};
ghost use Rattle.verdict_words.specs.Views.{mark, first_view, with_claim, with_none, with_seen, lent_share, without_lent, newcomer, joined};
ghost use Rattle.verdict_words.specs.Seats.{view, IsSeatOf, faults_of, claims_of};
ghost use Rattle.verdict_words.specs.Settled.{Told};

use super::plays::Sharing;
use super::{Board, Seat};
use crate::rule::Sizes;
use atomic_table::Table;
use std::alloc::Global;
use std::marker::{Brand, PhantomData};
use v_design::World;
use vf_base::{FaultId, NoMemory};

/// What `settle` answers.
#[derive(Clone, Copy, Drop, Debug, PartialEq, Eq)]
pub enum Settled {
    /// This call moved the word, from 0.
    Moved,
    /// The word was moved before, and this is its code.
    Was(u64),
}

impl<N: World> Board<N> {
    /// A board for so many faults and claims, with no word moved and no claim drawn, and its first seat.
    ///
    /// The seat has the whole share, 2^62 calls of `claim`.
    pub fn new(alloc: Global, faults: u32, claims: u32) -> Result<(Board<N>, Seat<N>), NoMemory>
        ensures { IfOk result (λ made. (faults_of made.0 ≡ faults) × (claims_of made.0 ≡ claims)
            × IsSeatOf made.0 made.1 × (view made.1 ≡ first_view)) }
    {
        let sizes = Sizes { faults, claims };
        let words = vec![in alloc; 0; faults as usize + 1]?;
        let (table, seat) = Table::of_words(alloc, words.as_slice(), &sizes)?;
        let board = Board { table, sizes };
        Ok((
            board,
            Seat {
                seat,
                world: PhantomData,
            },
        ))
    }

    /// The seat, and a new one with 2^33 of its share, which knows the codes that the seat has seen. It takes no memory.
    pub fn split(&self, seat: Seat<N>) -> (Seat<N>, Seat<N>)
        requires own { IsSeatOf self.now seat }
        requires share { (view seat).calls + lent_share < (view seat).share }
        ensures own { IsSeatOf self.now result.0 × IsSeatOf self.now result.1 }
        ensures old { view result.0 ≡ without_lent (view seat) }
        ensures new { view result.1 ≡ newcomer (view seat) }
    {
        let Seat {
            seat: mut old,
            world: _,
        } = seat;
        let new = self.table.shared.split_seat::<Sharing>(&mut old);
        (
            Seat {
                seat: old,
                world: PhantomData,
            },
            Seat {
                seat: new,
                world: PhantomData,
            },
        )
    }

    /// One seat with the lists, the shares and the calls of both. It takes no memory.
    pub fn join(&self, one: Seat<N>, other: Seat<N>) -> Seat<N>
        requires one { IsSeatOf self.now one }
        requires other { IsSeatOf self.now other }
        ensures own { IsSeatOf self.now result }
        ensures both { view result ≡ joined (view one) (view other) }
    {
        let Seat { mut seat, world: _ } = one;
        let Seat {
            seat: other,
            world: _,
        } = other;
        self.table.shared.join_seat::<Sharing>(&mut seat, other);
        Seat {
            seat,
            world: PhantomData,
        }
    }

    /// Draws the next claim, by one fetch-and-add: a number below the claims that no other call draws, or `None` exactly where the counter had
    /// reached the claims. It takes no memory.
    ///
    /// A number that is drawn is at least the calls that the seat had made, so that claiming until `None` ends.
    pub fn claim(&self, seat: Seat<N>) -> (Seat<N>, Option<u32>)
        requires own { IsSeatOf self.now seat }
        requires share { (view seat).calls < (view seat).share }
        ensures own { IsSeatOf self.now result.0 }
        ensures some { IfSome result.1 (λ n. (n < claims_of self.now) × ((view seat).calls ≤ n)
            × (view result.0 ≡ with_claim n (view seat))) }
        ensures none { IfNone result.1 (view result.0 ≡ with_none (view seat)) }
    {
        let Seat { mut seat, world: _ } = seat;
        let found = self.table.shared.fetch_add::<Brand>(&mut seat, 0, 1);
        let claim = if found < u64::from(self.sizes.claims) {
            Some(found as u32)
        } else {
            None
        };
        (
            Seat {
                seat,
                world: PhantomData,
            },
            claim,
        )
    }

    /// Moves the fault's word from 0 to the code, by one compare-and-exchange, or says the code to which it was moved before. It takes no
    /// memory.
    pub fn settle(&self, seat: Seat<N>, fault: FaultId, code: u64) -> (Seat<N>, Settled)
        requires own { IsSeatOf self.now seat }
        requires fault { fault_number fault < faults_of self.now }
        requires code { IsCode N.design N.plan (fault_number fault) code }
        ensures own { IsSeatOf self.now result.0 }
        ensures told { Told (fault_number fault) code (view seat) result.1 (view result.0) }
    {
        let Seat { mut seat, world: _ } = seat;
        let word = fault.0 as usize + 1;
        let found = self
            .table
            .shared
            .compare_exchange::<Brand>(&mut seat, word, 0, code);
        let settled = if found == 0 {
            Settled::Moved
        } else {
            Settled::Was(found)
        };
        (
            Seat {
                seat,
                world: PhantomData,
            },
            settled,
        )
    }

    /// The code of the fault's word, by one load, or `None` where the word is 0 at that step. It takes no memory.
    ///
    /// A code that the seat has seen is answered again.
    pub fn look(&self, seat: Seat<N>, fault: FaultId) -> (Seat<N>, Option<u64>)
        requires own { IsSeatOf self.now seat }
        requires fault { fault_number fault < faults_of self.now }
        ensures own { IsSeatOf self.now result.0 }
        ensures some { IfSome result.1 (λ code. IsCode N.design N.plan (fault_number fault) code
            × (view result.0 ≡ with_seen (fault_number fault) code (view seat))) }
        ensures none { IfNone result.1 (view result.0 ≡ view seat) }
        ensures again { (code : ℕ) → Contains (view seat).seen (mark (fault_number fault) code) → result.1 ≡ Some code }
    {
        let Seat { mut seat, world: _ } = seat;
        let found = self
            .table
            .shared
            .load::<Brand>(&mut seat, fault.0 as usize + 1);
        let code = if found == 0 { None } else { Some(found) };
        (
            Seat {
                seat,
                world: PhantomData,
            },
            code,
        )
    }
}
