// A shelf that fails at a read, and a sink that takes only so many bytes.

use super::{Run, is_answered, line_of};
use std::alloc::Global;
use std::process::Abort;
use std::test::Fail;
use std::thread::Threads;
use top_call::{Status, code};
use vf_base::OpenGate;

/// The output over the block.
const REPORT: &[u8] =
    b"vfault 1\nq sa0 detected 15\nq sa1 detected 5\ntotal 2 detected 2 possible 0 undetected 0 race 0 hyper 0\n";

/// A block.
const DESIGN: &[u8] = b"module top;\nreg q;\ninitial begin q = 0; #10 q = 1; end\nendmodule\n";

/// A plan over it.
const PLAN: &[u8] = b"end 20\nwatch q\nstrobe 5\nstrobe 15\nfault q 0\nfault q 1\n";

/// A run over the block whose shelf fails at this call and whose sink takes so many bytes ends with this number, this line and this output.
fn ends<R: Threads + Sync + Abort>(
    rt: &R,
    alloc: Global,
    failing: u64,
    most: Option<u64>,
    number: u8,
    line: &[u8],
    output: &[u8],
) -> Result<(), Fail> {
    let run = Run {
        words: "grade d p top 1",
        design: DESIGN,
        plan: PLAN,
        cert: b"",
        number,
        line,
        output,
    };
    is_answered(rt, alloc, &run, failing, most, &OpenGate)
}

#[test]
fn reads_that_fail(rt: HostRuntime) -> Result<(), Fail> {
    let alloc = rt.alloc();
    let line = b"vfault: cannot read the design";
    ends(&rt, alloc, 1, None, 3, line, b"")?;
    let line = b"vfault: cannot read the plan";
    ends(&rt, alloc, 2, None, 3, line, b"")
}

#[test]
fn a_certificate_that_fails(rt: HostRuntime) -> Result<(), Fail> {
    let run = Run {
        words: "audit d p top c",
        design: DESIGN,
        plan: PLAN,
        cert: b"vfault cert 1\n",
        number: 3,
        line: b"vfault: cannot read the certificate",
        output: b"",
    };
    is_answered(&rt, rt.alloc(), &run, 3, None, &OpenGate)
}

/// Runs into sinks that take fewer bytes than this report has, and so many, put as many of its bytes as the sink takes.
fn ends_at_each<R: Threads + Sync + Abort>(
    rt: &R,
    alloc: Global,
    report: &[u8],
) -> Result<(), Fail> {
    'sizes: for most in 0..report.len() {
        let put = &report[..most];
        ends(
            rt,
            alloc,
            0,
            Some(most as u64),
            4,
            b"vfault: cannot write",
            put,
        )?;
    }
    ends(rt, alloc, 0, Some(report.len() as u64), 0, b"", report)
}

#[test]
fn sinks_that_take_a_part(rt: HostRuntime) -> Result<(), Fail> {
    ends_at_each(&rt, rt.alloc(), REPORT)
}

#[test]
fn want_of_memory_is_told(rt: HostRuntime) -> Result<(), Fail> {
    let line = line_of(rt.alloc(), &Status::NoMemory)?;
    assert_eq!(rt; line.as_slice(), b"vfault: out of memory".as_slice());
    assert_eq!(rt; code(&Status::NoMemory), 5);
    Ok(())
}
