// The workers before the first round.

ghost use Rattle.std.specs.Prelude.{◌≡◌, ◌≤◌, ℕ, List, IfOk};
ghost use Rattle.std.specs.List.{range_with_len};
ghost use Rattle.verdict_words.specs.Seats.{view, IsSeatOf};
ghost use Rattle.verdict_words.specs.Views.{first_view};
ghost use Rattle.shard_findings.specs.AllWorkers.{IsRest, AreWorkersAt, worker_numbers};

use shard_claims::Worker;
use std::alloc::Global;
use v_design::World;
use verdict_words::{Board, Seat};
use vf_base::NoMemory;

/// So many workers, numbered from 0 in order, each with a seat of its own that is split off the first seat of a board; and what is left of that.
///
/// # Errors
///
/// Want of memory.
pub fn hire<N: World>(
    alloc: Global,
    board: &Board<N>,
    seat: Seat<N>,
    count: u32,
) -> Result<(Seat<N>, Vec<Worker<N>>), NoMemory>
    requires own { IsSeatOf board.now seat }
    requires first { view seat ≡ first_view }
    requires few { count ≤ 64 }
    ensures rest { IfOk result (λ hired. IsRest board.now count hired.0) }
    ensures workers { IfOk result (λ hired. (representatives : List ℕ) → AreWorkersAt representatives board.now 0 count hired.1.items) }
    ensures numbers { IfOk result (λ hired. worker_numbers hired.1.items ≡ range_with_len 0 count) }
{
    let mut seat = seat;
    let mut workers = Vec::new(alloc);
    'numbers: for number in 0..count {
        let (rest, own) = board.split(seat);
        seat = rest;
        workers.push(Worker {
            number,
            seat: own,
            shards: Vec::new(alloc),
            dry: false,
        })?;
    }
    Ok((seat, workers))
}
