// What a worker calls before it begins a shard.

use std::sync::atomic::{AtomicBool, Ordering};

/// Called by a worker before it begins a shard, and before each later run of a shard. It returns; nothing else is promised.
pub trait Gate {
    /// A worker is about to run a shard.
    fn turn(&self, worker: u32, shard: u32);
}

/// A gate that returns at once.
#[derive(Clone, Copy, Debug)]
pub struct OpenGate;

impl Gate for OpenGate {
    fn turn(&self, _worker: u32, _shard: u32) {}
}

/// A gate that holds the first turn of one shard until a turn of another has come, for at most a number of looks.
#[derive(Drop)]
pub struct HeldGate {
    first: u32,
    second: u32,
    most: u64,
    begun: AtomicBool,
    set: AtomicBool,
    met: AtomicBool,
}

impl HeldGate {
    /// A gate whose first turn for the shard `first` looks at most `most` times whether a turn for the shard `second` has come.
    pub fn new(first: u32, second: u32, most: u64) -> HeldGate {
        HeldGate {
            first,
            second,
            most,
            begun: AtomicBool::new(false),
            set: AtomicBool::new(false),
            met: AtomicBool::new(false),
        }
    }

    /// Whether that first turn saw a turn for the shard `second`.
    pub fn met(&self) -> bool {
        self.met.load(Ordering::SeqCst)
    }
}

impl Gate for HeldGate {
    fn turn(&self, _worker: u32, shard: u32) {
        if shard == self.second {
            self.set.store(true, Ordering::SeqCst);
        }
        if shard == self.first && !self.begun.swap(true, Ordering::SeqCst) {
            for _ in 0..self.most {
                if self.set.load(Ordering::SeqCst) {
                    self.met.store(true, Ordering::SeqCst);
                    return;
                }
            }
        }
    }
}
