// A worker that is through with its own shards runs a copy of another worker's.

use super::{Run, answered};
use std::marker::Brand;
use std::sync::atomic::{AtomicBool, AtomicU64, Ordering};
use std::sync::ledger::Blank;
use std::test::Fail;
use top_call::{COUNTERS, code};
use vf_base::Gate;

/// 65 registers' bits, of which one is watched: 130 faults in five shards, none of which is through with the first of two windows.
const DESIGN: &[u8] =
    b"module top;\nreg [63:0] u = 0; reg clk = 0;\nalways #5 clk = ~clk;\nendmodule\n";

const PLAN: &[u8] = b"end 400\nwatch clk\nstrobe 3\nfaults all\n";

const LAST: &[u8] = b"total 130 detected 1 possible 0 undetected 129 race 0 hyper 0\n";

/// A gate that notes the worker of each shard's first turn as its owner, and is met once a later turn of a shard comes from another worker. The first later turn that comes from an
/// owner another shard of whom has had no later turn looks so many times whether the gate is met; every other turn returns at once.
#[derive(Drop)]
struct BackupGate {
    /// By shard one more than the owner's number, and 0 before its first turn.
    owners: [AtomicU64; 5],
    later: [AtomicBool; 5],
    waited: AtomicBool,
    met: AtomicBool,
}

impl BackupGate {
    fn new() -> BackupGate {
        BackupGate {
            owners: [
                AtomicU64::new(0),
                AtomicU64::new(0),
                AtomicU64::new(0),
                AtomicU64::new(0),
                AtomicU64::new(0),
            ],
            later: [
                AtomicBool::new(false),
                AtomicBool::new(false),
                AtomicBool::new(false),
                AtomicBool::new(false),
                AtomicBool::new(false),
            ],
            waited: AtomicBool::new(false),
            met: AtomicBool::new(false),
        }
    }

    // Whether a shard of an owner has had no later turn.
    fn is_left(&self, owner: u64) -> bool {
        for (place, one) in self.owners.iter().enumerate() {
            if one.load(Ordering::SeqCst) == owner && !self.later[place].load(Ordering::SeqCst) {
                return true;
            }
        }
        false
    }

    // A later turn of a shard with this owner.
    fn later_turn(&self, own: u64, owner: u64) {
        if own != owner {
            self.met.store(true, Ordering::SeqCst);
            return;
        }
        if !self.is_left(owner) || self.waited.swap(true, Ordering::SeqCst) {
            return;
        }
        for _ in 0..2_000_000_000_u64 {
            if self.met.load(Ordering::SeqCst) {
                return;
            }
        }
    }
}

impl Gate for BackupGate {
    fn turn(&self, worker: u32, shard: u32) {
        let place = shard as usize;
        if place >= 5 {
            return;
        }
        let own = u64::from(worker) + 1;
        let owner = self.owners[place].load(Ordering::SeqCst);
        if owner == 0 {
            self.owners[place].store(own, Ordering::SeqCst);
            return;
        }
        self.later[place].store(true, Ordering::SeqCst);
        self.later_turn(own, owner);
    }
}

// The first worker with two shards is held at the first of these in the second window, until the other one, which is through with its own, takes a copy of another.
#[test]
fn a_worker_runs_a_copy_of_anothers_shard(rt: HostRuntime) -> Result<(), Fail> {
    let gate = BackupGate::new();
    let run = Run {
        words: "grade d p top 2",
        design: DESIGN,
        plan: PLAN,
        cert: b"",
        number: 0,
        line: b"",
        output: b"",
    };
    let blank = Blank::new(COUNTERS);
    let (status, held) = answered::<Brand, _, _>(&rt, rt.alloc(), blank, &run, 0, None, &gate)?;
    assert_eq!(rt; code(&status), 0);
    assert!(rt; held.as_slice().ends_with(LAST));
    assert!(rt; gate.met.load(Ordering::SeqCst));
    Ok(())
}
