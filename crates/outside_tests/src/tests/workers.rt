// Two workers of whom one waits for the other.

use super::{Run, is_answered};
use std::test::Fail;
use vf_base::HeldGate;

// The worker with the first shard is held until another begins the second, so two are at work at once; no file is read.
#[test]
fn two_workers_at_once(rt: HostRuntime) -> Result<(), Fail> {
    let gate = HeldGate::new(0, 1, 2_000_000_000);
    let run = Run {
        words: "soak 5 64 2",
        design: b"",
        plan: b"",
        cert: b"",
        number: 0,
        line: b"",
        output: b"total 514 detected 386 possible 0 undetected 128 race 0 hyper 0\n",
    };
    is_answered(&rt, rt.alloc(), &run, 1, None, &gate)?;
    assert!(rt; gate.met());
    Ok(())
}
