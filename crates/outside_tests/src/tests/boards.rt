// Threads at the words of the verdicts, at the counter of claims and at the slots of jobs.

ghost use Rattle.std.specs.Prelude.{◌≡◌, ◌<◌, ◌≤◌, IfOk};
ghost use Rattle.verdict_words.specs.Codes.{IsCode};
ghost use Rattle.verdict_words.specs.JobSeats.{IsJobSeatOf, slots_of, IsFree};
ghost use Rattle.verdict_words.specs.Seats.{view, IsSeatOf, faults_of, claims_of};
ghost use Rattle.verdict_words.specs.Settled.{Told, OneMoved};
ghost use Rattle.verdict_words.specs.Views.{lent_share};

use std::alloc::Global;
use std::marker::Brand;
use std::test::Fail;
use std::thread::{Threads, join};
use v_design::World;
use verdict_words::{Board, Closed, JobSeat, Jobs, Seat, Settled, Taken, verdict_code};
use vf_base::{Access, AccessKind, End, FaultId, NoMemory, ObjectId, Pair, ProcId, Side};

// Two threads settle the only fault of a board: one moves its word, and the other finds the code there.
fn settle_once<N: World, R: Threads>(
    rt: &R,
    alloc: Global,
    code: u64,
) -> Result<(Closed<N>, Settled, Settled), NoMemory>
    requires { IsCode N.design N.plan 0 code }
    ensures { IfOk result (λ settled. OneMoved code settled.1 settled.2) }
{
    let (board, seat) = Board::<N>::new(alloc, 1, 1)?;
    let (one, other) = board.split(seat);
    let shared = &board;
    let (a, b) = join(
        rt,
        || -> (Seat<N>, Settled)
            requires own { IsSeatOf shared.now one }
            requires fault { 0 < faults_of shared.now }
            requires code { IsCode N.design N.plan 0 code }
            ensures own { IsSeatOf shared.entry.now result.0 }
            ensures told { Told 0 code (view one) result.1 (view result.0) }
        { shared.settle(one, FaultId(0), code) },
        || -> (Seat<N>, Settled)
            requires own { IsSeatOf shared.now other }
            requires fault { 0 < faults_of shared.now }
            requires code { IsCode N.design N.plan 0 code }
            ensures own { IsSeatOf shared.entry.now result.0 }
            ensures told { Told 0 code (view other) result.1 (view result.0) }
        { shared.settle(other, FaultId(0), code) },
    );
    let (one, first) = a;
    let (other, second) = b;
    let seat = board.join(one, other);
    let closed = board.close(alloc, seat)?;
    Ok((closed, first, second))
}

#[test]
fn one_thread_moves_the_word_and_the_other_finds_the_code(rt: HostRuntime) -> Result<(), Fail> {
    let (closed, first, second) = settle_once::<Brand, _>(&rt, rt.alloc(), 3)?;
    assert!(rt; (first == Settled::Moved) != (second == Settled::Moved));
    assert!(rt; (first == Settled::Was(3)) != (second == Settled::Was(3)));
    assert_eq!(rt; closed.words(), [3].as_slice());
    Ok(())
}

// What the only fault's word is, before and after it is settled twice.
fn look_round<N: World>(
    alloc: Global,
    code: u64,
) -> Result<(Option<u64>, Settled, Settled, Option<u64>), NoMemory>
    requires { IsCode N.design N.plan 0 code }
{
    let fault = FaultId(0);
    let (board, seat) = Board::<N>::new(alloc, 1, 1)?;
    let (seat, before) = board.look(seat, fault);
    let (seat, first) = board.settle(seat, fault, code);
    let (seat, second) = board.settle(seat, fault, code);
    let (_seat, after) = board.look(seat, fault);
    Ok((before, first, second, after))
}

#[test]
fn a_word_is_0_until_it_is_moved(rt: HostRuntime) -> Result<(), Fail> {
    let seen = look_round::<Brand>(rt.alloc(), 3)?;
    assert_eq!(rt; seen, (None, Settled::Moved, Settled::Was(3), Some(3)));
    Ok(())
}

// The claims that are left, each as one bit.
fn draw_all<N: World>(board: &Board<N>, seat: Seat<N>) -> u64
    requires own { IsSeatOf board.now seat }
    requires fresh { (lent_share ≤ (view seat).share) × ((view seat).calls ≡ 0) }
    requires few { claims_of board.now < 64 }
{
    let mut seat = seat;
    let mut drawn = 0u64;
    'claims: loop {
        let (next, claim) = board.claim(seat);
        seat = next;
        let Some(number) = claim else {
            return drawn;
        };
        drawn |= 1 << number;
    }
}

// What each of two threads draws of nine claims.
fn drawn_by_two<N: World, R: Threads>(rt: &R, alloc: Global) -> Result<(u64, u64), NoMemory> {
    let (board, seat) = Board::<N>::new(alloc, 1, 9)?;
    let (one, other) = board.split(seat);
    let shared = &board;
    Ok(join(
        rt,
        || -> u64
            requires own { IsSeatOf shared.now one }
            requires fresh { (lent_share ≤ (view one).share) × ((view one).calls ≡ 0) }
            requires few { claims_of shared.now < 64 }
        { draw_all(shared, one) },
        || -> u64
            requires own { IsSeatOf shared.now other }
            requires fresh { (lent_share ≤ (view other).share) × ((view other).calls ≡ 0) }
            requires few { claims_of shared.now < 64 }
        { draw_all(shared, other) },
    ))
}

#[test]
fn two_threads_draw_each_claim_once(rt: HostRuntime) -> Result<(), Fail> {
    let (first, second) = drawn_by_two::<Brand, _>(&rt, rt.alloc())?;
    assert_eq!(rt; first & second, 0);
    assert_eq!(rt; first | second, 0b1_1111_1111);
    Ok(())
}

#[test]
fn a_slot_is_held_until_it_is_given_back(rt: HostRuntime) -> Result<(), Fail> {
    let (jobs, seat) = Jobs::<u32>::new(rt.alloc(), 2)?;
    let (one, other) = jobs.split(seat);
    let (one, taken) = jobs.take(one, 1);
    let (other, refused) = jobs.take(other, 1);
    let Taken::Got(None) = taken else {
        panic!(rt; "the slot of fresh jobs was held, or not empty");
    };
    let Taken::Held = refused else {
        panic!(rt; "two seats hold one slot");
    };
    let one = jobs.put(one, 1, Some(5));
    let (other, again) = jobs.take(other, 1);
    let Taken::Got(Some(5)) = again else {
        panic!(rt; "the job wasn't left in the slot");
    };
    let other = jobs.put(other, 1, None);
    let _seat = jobs.join(one, other);
    Ok(())
}

// Leaves the job in the slot, where no other seat holds it.
fn leave<J: Drop>(jobs: &Jobs<J>, seat: JobSeat<J>, slot: u32, job: J) -> JobSeat<J>
    requires own { IsJobSeatOf jobs.now seat }
    requires slot { slot < slots_of jobs.now }
    requires free { IsFree seat }
    ensures own { IsJobSeatOf jobs.now result }
    ensures free { IsFree result }
{
    let (seat, taken) = jobs.take(seat, slot);
    match taken {
        Taken::Got(_) => jobs.put(seat, slot, Some(job)),
        Taken::Held => seat,
    }
}

// Two threads leave a job each, in a slot of its own.
fn left_by_two<J: Drop + Send, R: Threads>(
    rt: &R,
    jobs: &Jobs<J>,
    seats: (JobSeat<J>, JobSeat<J>),
    first: J,
    second: J,
) -> JobSeat<J>
    requires own { IsJobSeatOf jobs.now seats.0 × IsJobSeatOf jobs.now seats.1 }
    requires free { IsFree seats.0 × IsFree seats.1 }
    requires slots { 1 < slots_of jobs.now }
    ensures own { IsJobSeatOf jobs.now result }
    ensures free { IsFree result }
{
    let (one, other) = seats;
    let (one, other) = join(
        rt,
        || -> JobSeat<J>
            requires own { IsJobSeatOf jobs.now one }
            requires slot { 0 < slots_of jobs.now }
            requires free { IsFree one }
            ensures own { IsJobSeatOf jobs.entry.now result }
            ensures free { IsFree result }
        { leave(jobs, one, 0, first) },
        || -> JobSeat<J>
            requires own { IsJobSeatOf jobs.now other }
            requires slot { 1 < slots_of jobs.now }
            requires free { IsFree other }
            ensures own { IsJobSeatOf jobs.entry.now result }
            ensures free { IsFree result }
        { leave(jobs, other, 1, second) },
    );
    jobs.join(one, other)
}

#[test]
fn jobs_cross_from_thread_to_thread(rt: HostRuntime) -> Result<(), Fail> {
    let (jobs, seat) = Jobs::<u32>::new(rt.alloc(), 2)?;
    let seats = jobs.split(seat);
    let seat = left_by_two(&rt, &jobs, seats, 5, 6);
    let (one, other) = jobs.split(seat);
    let (_one, first) = jobs.take(one, 0);
    let (_other, second) = jobs.take(other, 1);
    assert!(rt; matches!((first, second), (Taken::Got(Some(5)), Taken::Got(Some(6)))));
    Ok(())
}

#[test]
fn a_code_is_a_kind_and_eight_times_a_time(rt: HostRuntime) {
    let access = Access {
        kind: AccessKind::Write,
        object: ObjectId(1),
        process: ProcId(2),
        line: 4,
    };
    let pair = Pair {
        time: 5,
        phase: 1,
        first: access,
        second: access,
    };
    let latest = 2_305_843_009_213_693_951;
    let codes = [
        (End::Detected(13), 105),
        (End::Possible(3), 26),
        (End::Undetected, 3),
        (End::Race(Side::Good, pair), 44),
        (End::Race(Side::Faulty, pair), 45),
        (End::Hyper(0), 6),
        (End::Hyper(latest), u64::MAX - 1),
    ];
    for (end, code) in codes {
        assert_eq!(rt; verdict_code(end), code);
    }
}
