// Texts at the limits that are too large for data.

use super::{Run, is_answered};
use std::alloc::{AllocError, Global};
use std::process::Abort;
use std::test::Fail;
use std::thread::Threads;
use vf_base::{MAX_DESIGN_BYTES, MAX_PLAN_BYTES, OpenGate};

const NO_FAULTS: &[u8] = b"vfault 1\ntotal 0 detected 0 possible 0 undetected 0 race 0 hyper 0\n";

const ALL_FAULTS: &[u8] = b"faults all\n";

const TWO_BITS: &[u8] = b"module top;\nreg a, b;\nendmodule\n";

/// The first text, so many times the second, and the third.
fn repeated(
    alloc: Global,
    first: &[u8],
    second: &[u8],
    count: u64,
    third: &[u8],
) -> Result<Vec<u8>, AllocError> {
    let mut text = Vec::from_slice(alloc, first)?;
    'times: for _ in 0..count {
        text.extend_from_slice(second)?;
    }
    text.extend_from_slice(third)?;
    Ok(text)
}

/// A run over the design and the plan ends with this number, this line and this output.
fn is_graded<R: Threads + Sync + Abort>(
    rt: &R,
    alloc: Global,
    design: &[u8],
    plan: &[u8],
    number: u8,
    line: &[u8],
    output: &[u8],
) -> Result<(), Fail> {
    let run = Run {
        words: "grade d p top 1",
        design,
        plan,
        cert: b"",
        number,
        line,
        output,
    };
    is_answered(rt, alloc, &run, 0, None, &OpenGate)
}

/// A run over two bits and a plan ends with this number, this line and this output; the plan has so many of these lines behind its end.
fn is_planned<R: Threads + Sync + Abort>(
    rt: &R,
    alloc: Global,
    lines: &[u8],
    count: u64,
    number: u8,
    line: &[u8],
    output: &[u8],
) -> Result<(), Fail> {
    let plan = repeated(alloc, b"end 0\n", lines, count, b"")?;
    is_graded(rt, alloc, TWO_BITS, plan.as_slice(), number, line, output)
}

/// A run over a design of so many opening parentheses ends with this number and this line.
fn is_opened<R: Threads + Sync + Abort>(
    rt: &R,
    alloc: Global,
    count: u64,
    number: u8,
    line: &[u8],
) -> Result<(), Fail> {
    let design = repeated(alloc, b"", b"(", count, b"")?;
    is_graded(rt, alloc, design.as_slice(), b"end 1\n", number, line, b"")
}

/// A run over a block of so many statements ends with this number, this line and this output.
fn is_run<R: Threads + Sync + Abort>(
    rt: &R,
    alloc: Global,
    count: u64,
    number: u8,
    line: &[u8],
    output: &[u8],
) -> Result<(), Fail> {
    let end = b"end\nendmodule\n";
    let design = repeated(
        alloc,
        b"module top;\nreg q;\ninitial begin ",
        b"q=0;",
        count,
        end,
    )?;
    let plan = b"end 20\nwatch q\nstrobe 5\nfault q 0\nfault q 1\n";
    is_graded(rt, alloc, design.as_slice(), plan, number, line, output)
}

#[test]
fn the_longest_blocks(rt: HostRuntime) -> Result<(), Fail> {
    let report =
        b"vfault 1\nq sa0 undetected\nq sa1 detected 5\ntotal 2 detected 1 possible 0 undetected 1 race 0 hyper 0\n";
    is_run(&rt, rt.alloc(), 99_999, 0, b"", report)?;
    let line = b"vfault: the good machine loops at time 0";
    is_run(&rt, rt.alloc(), 100_001, 6, line, b"")
}

#[test]
fn the_longest_designs(rt: HostRuntime) -> Result<(), Fail> {
    let line = b"vfault: design 1:1: unexpected";
    is_opened(&rt, rt.alloc(), MAX_DESIGN_BYTES, 1, line)?;
    let line = b"vfault: the design is too long";
    is_opened(&rt, rt.alloc(), MAX_DESIGN_BYTES + 1, 7, line)
}

#[test]
fn the_longest_plans(rt: HostRuntime) -> Result<(), Fail> {
    let most = MAX_PLAN_BYTES - 6;
    is_planned(&rt, rt.alloc(), b"\n", most, 0, b"", NO_FAULTS)?;
    let line = b"vfault: the plan is too long";
    is_planned(&rt, rt.alloc(), b"\n", most + 1, 7, line, b"")
}

#[test]
fn the_longest_lists_of_faults(rt: HostRuntime) -> Result<(), Fail> {
    let alloc = rt.alloc();
    let report = repeated(
        alloc,
        b"vfault 1\n",
        b"a sa0 undetected\na sa1 undetected\nb sa0 undetected\nb sa1 undetected\n",
        16_384,
        b"total 65536 detected 0 possible 0 undetected 65536 race 0 hyper 0\n",
    )?;
    is_planned(&rt, alloc, ALL_FAULTS, 16_384, 0, b"", report.as_slice())?;
    let line = b"vfault: plan 16386: too many";
    is_planned(&rt, alloc, ALL_FAULTS, 16_385, 1, line, b"")
}

/// The audit of a certificate of one line of so many blanks, and of some more, ends with this number, this line and this output.
fn is_audited<R: Threads + Sync + Abort>(
    rt: &R,
    alloc: Global,
    more: &[u8],
    number: u8,
    line: &[u8],
    output: &[u8],
) -> Result<(), Fail> {
    let cert = repeated(alloc, b"", b"                ", 1_048_576, more)?;
    let run = Run {
        words: "audit d p top c",
        design: TWO_BITS,
        plan: b"end 0\n",
        cert: cert.as_slice(),
        number,
        line,
        output,
    };
    is_answered(rt, alloc, &run, 0, None, &OpenGate)
}

#[test]
fn the_longest_certificates(rt: HostRuntime) -> Result<(), Fail> {
    is_audited(&rt, rt.alloc(), b"", 0, b"", b"no 1\n")?;
    let line = b"vfault: the certificate is too long";
    is_audited(&rt, rt.alloc(), b" ", 7, line, b"")
}
