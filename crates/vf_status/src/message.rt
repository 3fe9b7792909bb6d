// The line that tells how a run of the program ended.

ghost use Rattle.std.specs.Prelude.{◌≡◌, ◌++◌, IfOk, OnOk, codes};
ghost use Rattle.std.specs.Fmt.{decimal};
ghost use Rattle.vf_status.specs.Status.{status_text, refusal_text, scan_text, parse_text, elab_text, plan_text, response_text};
ghost use Rattle.vf_status.specs.Status.{too_large_text, no_fault_text, numbered_text, place_text, at_place, what_word, file_word, usage_text};

use crate::status::{Refusal, Status, Which};
use elaborate::ElabFault;
use plan_read::PlanFault;
use response_text::ResponseFault;
use std::alloc::Global;
use v_elab::What;
use v_parse::ParseFault;
use v_scan::ScanFault;
use vf_base::{NoMemory, Place, Text};

/// The usage line as far as the form that makes up a design.
const USAGE: &[u8] =
    b"vfault: usage: grade DESIGN PLAN TOP WORKERS [strict] | check DESIGN TOP [strict] | faults DESIGN TOP [strict] | soak NUMBER SIZE WORKERS";

/// What stands behind it in the usage line: the forms that tell a dictionary and compare with it.
const DICTIONARY_USAGE: &[u8] =
    b" | dict DESIGN PLAN TOP [strict] | diagnose DESIGN PLAN TOP RESPONSE [strict]";

/// The end of the usage line: the forms of certificates, and the one that picks strobes.
const LAST_USAGE: &[u8] =
    b" | certify DESIGN PLAN TOP FAULT [strict] | audit DESIGN PLAN TOP CERT [strict] | pick DESIGN PLAN TOP [strict]";

/// Adds bytes.
fn append(out: &mut Vec<u8>, bytes: &[u8]) -> Result<(), NoMemory>
    ensures { OnOk result (out.new.items ≡ out.old.items ++ bytes.now) }
{
    match out.extend_from_slice(bytes) {
        Ok(()) => Ok(()),
        Err(_) => Err(NoMemory),
    }
}

/// Adds a number in decimal.
fn append_number(alloc: Global, out: &mut Vec<u8>, number: u64) -> Result<(), NoMemory>
    ensures { OnOk result (out.new.items ≡ out.old.items ++ decimal number) }
{
    let digits = number.to_string(alloc)?;
    append(out, digits.as_bytes())
}

/// These bytes.
fn bytes_of(alloc: Global, bytes: &[u8]) -> Result<Vec<u8>, NoMemory>
    ensures { IfOk result (λ text. text.items ≡ bytes.now) }
{
    let text = Vec::from_slice(alloc, bytes)?;
    Ok(text)
}

/// The word of a file.
fn file_word(which: Which) -> &'static [u8]
    ensures { result.now ≡ file_word which }
{
    match which {
        Which::Design => b"design",
        Which::Plan => b"plan",
        Which::Response => b"response",
        Which::Cert => b"certificate",
    }
}

/// The word of what there are too many of.
fn what_word(what: What) -> &'static [u8]
    ensures { result.now ≡ what_word what }
{
    match what {
        What::Objects => b"objects",
        What::Nodes => b"nodes",
        What::Processes => b"processes",
        What::Instances => b"instances",
        What::Inputs => b"inputs",
    }
}

/// A place of the design, and what is wrong there.
fn at_place(alloc: Global, place: Place, words: &[u8]) -> Result<Vec<u8>, NoMemory>
    ensures { IfOk result (λ text. text.items ≡ at_place place words.now) }
{
    let mut text = bytes_of(alloc, b"vfault: design ")?;
    append_number(alloc, &mut text, u64::from(place.line))?;
    append(&mut text, b":")?;
    append_number(alloc, &mut text, u64::from(place.column))?;
    append(&mut text, words)?;
    Ok(text)
}

/// The line of a text without tokens.
fn scan_line(alloc: Global, fault: ScanFault) -> Result<Vec<u8>, NoMemory>
    ensures { IfOk result (λ text. text.items ≡ scan_text fault) }
{
    match fault {
        ScanFault::BadByte(place) => at_place(alloc, place, b": bad byte"),
        ScanFault::BadNumber(place) => at_place(alloc, place, b": bad number"),
        ScanFault::Unclosed(place) => at_place(alloc, place, b": not closed"),
        ScanFault::TooLong => Ok(Vec::new(alloc)),
        ScanFault::NoMemory => Ok(Vec::new(alloc)),
    }
}

/// The line of tokens that spell no unit.
fn parse_line(alloc: Global, fault: ParseFault) -> Result<Vec<u8>, NoMemory>
    ensures { IfOk result (λ text. text.items ≡ parse_text fault) }
{
    match fault {
        ParseFault::Unexpected(place) => at_place(alloc, place, b": unexpected"),
        ParseFault::Unsupported(place) => at_place(alloc, place, b": not in the profile"),
        ParseFault::TooDeep(place) => at_place(alloc, place, b": too deep"),
        ParseFault::NoMemory => Ok(Vec::new(alloc)),
    }
}

/// The line of a bit with two drivers.
fn two_drivers(alloc: Global, place: Place, bit: u64) -> Result<Vec<u8>, NoMemory>
    ensures { IfOk result (λ text. text.items ≡ at_place place (codes ": two drivers of bit ") ++ decimal bit) }
{
    let mut text = at_place(alloc, place, b": two drivers of bit ")?;
    append_number(alloc, &mut text, bit)?;
    Ok(text)
}

/// The line of what there are too many of.
fn too_many(alloc: Global, what: What, number: u64) -> Result<Vec<u8>, NoMemory>
    ensures { IfOk result (λ text. text.items ≡ codes "vfault: design: too many " ++ what_word what ++ codes " (" ++ decimal number ++ codes ")") }
{
    let mut text = bytes_of(alloc, b"vfault: design: too many ")?;
    append(&mut text, what_word(what))?;
    append(&mut text, b" (")?;
    append_number(alloc, &mut text, number)?;
    append(&mut text, b")")?;
    Ok(text)
}

/// The line of a unit without a design.
fn elab_line(alloc: Global, fault: ElabFault) -> Result<Vec<u8>, NoMemory>
    ensures { IfOk result (λ text. text.items ≡ elab_text fault) }
{
    match fault {
        ElabFault::Unknown(place) => at_place(alloc, place, b": unknown name"),
        ElabFault::Twice(place) => at_place(alloc, place, b": declared twice"),
        ElabFault::NotConstant(place) => at_place(alloc, place, b": not a constant"),
        ElabFault::TooWide(place) => at_place(alloc, place, b": bad width"),
        ElabFault::PortMismatch(place) => at_place(alloc, place, b": bad connection"),
        ElabFault::WrongKind(place) => at_place(alloc, place, b": wrong kind of name"),
        ElabFault::TooDeep(place) => at_place(alloc, place, b": too deep"),
        ElabFault::TwoDrivers(place, bit) => two_drivers(alloc, place, bit),
        ElabFault::NoTop => bytes_of(alloc, b"vfault: design: no module of that name"),
        ElabFault::TooMany(what, number) => too_many(alloc, what, number),
        ElabFault::Loop(place) => at_place(alloc, place, b": loop"),
        ElabFault::NoMemory => Ok(Vec::new(alloc)),
    }
}

/// A line of a file, and what is wrong with it.
fn numbered_line(alloc: Global, which: Which, line: u32, words: &[u8]) -> Result<Vec<u8>, NoMemory>
    ensures { IfOk result (λ text. text.items ≡ numbered_text which line words.now) }
{
    let mut text = bytes_of(alloc, b"vfault: ")?;
    append(&mut text, file_word(which))?;
    append(&mut text, b" ")?;
    append_number(alloc, &mut text, u64::from(line))?;
    append(&mut text, words)?;
    Ok(text)
}

/// The line of a plan's fault.
fn plan_line(alloc: Global, fault: PlanFault) -> Result<Vec<u8>, NoMemory>
    ensures { IfOk result (λ text. text.items ≡ plan_text fault) }
{
    match fault {
        PlanFault::BadLine(line) => numbered_line(alloc, Which::Plan, line, b": bad line"),
        PlanFault::UnknownSite(line) => numbered_line(alloc, Which::Plan, line, b": unknown name"),
        PlanFault::TooMany(line) => numbered_line(alloc, Which::Plan, line, b": too many"),
        PlanFault::TooLong => Ok(Vec::new(alloc)),
        PlanFault::NoMemory => Ok(Vec::new(alloc)),
    }
}

/// The line of a response's fault.
fn response_line(alloc: Global, fault: ResponseFault) -> Result<Vec<u8>, NoMemory>
    ensures { IfOk result (λ text. text.items ≡ response_text fault) }
{
    match fault {
        ResponseFault::BadLine(line) => numbered_line(alloc, Which::Response, line, b": bad line"),
        ResponseFault::TooLong => Ok(Vec::new(alloc)),
        ResponseFault::NoMemory => Ok(Vec::new(alloc)),
    }
}

/// The line of a dictionary that is too large.
fn too_large(alloc: Global, room: u64) -> Result<Vec<u8>, NoMemory>
    ensures { IfOk result (λ text. text.items ≡ too_large_text room) }
{
    let mut text = bytes_of(alloc, b"vfault: the dictionary is too large (")?;
    append_number(alloc, &mut text, room)?;
    append(&mut text, b")")?;
    Ok(text)
}

/// The line of a place at which the plan lists no fault.
fn no_fault(alloc: Global, place: u32) -> Result<Vec<u8>, NoMemory>
    ensures { IfOk result (λ text. text.items ≡ no_fault_text place) }
{
    let mut text = bytes_of(alloc, b"vfault: no fault ")?;
    append_number(alloc, &mut text, u64::from(place))?;
    Ok(text)
}

/// The line of a refusal.
fn refusal_line(alloc: Global, refusal: Refusal) -> Result<Vec<u8>, NoMemory>
    ensures { IfOk result (λ text. text.items ≡ refusal_text refusal) }
{
    match refusal {
        Refusal::Scan(fault) => scan_line(alloc, fault),
        Refusal::Parse(fault) => parse_line(alloc, fault),
        Refusal::Elab(fault) => elab_line(alloc, fault),
        Refusal::Plan(fault) => plan_line(alloc, fault),
        Refusal::Response(fault) => response_line(alloc, fault),
        Refusal::TooLarge(room) => too_large(alloc, room),
        Refusal::NoFault(place) => no_fault(alloc, place),
    }
}

/// The line of a file that wasn't read.
fn cannot_read(alloc: Global, which: Which) -> Result<Vec<u8>, NoMemory>
    ensures { IfOk result (λ text. text.items ≡ codes "vfault: cannot read the " ++ file_word which) }
{
    let mut text = bytes_of(alloc, b"vfault: cannot read the ")?;
    append(&mut text, file_word(which))?;
    Ok(text)
}

/// The line of a good machine that loops.
fn good_loop(alloc: Global, time: u64) -> Result<Vec<u8>, NoMemory>
    ensures { IfOk result (λ text. text.items ≡ codes "vfault: the good machine loops at time " ++ decimal time) }
{
    let mut text = bytes_of(alloc, b"vfault: the good machine loops at time ")?;
    append_number(alloc, &mut text, time)?;
    Ok(text)
}

/// The line of a file that is too long.
fn too_long(alloc: Global, which: Which) -> Result<Vec<u8>, NoMemory>
    ensures { IfOk result (λ text. text.items ≡ codes "vfault: the " ++ file_word which ++ codes " is too long") }
{
    let mut text = bytes_of(alloc, b"vfault: the ")?;
    append(&mut text, file_word(which))?;
    append(&mut text, b" is too long")?;
    Ok(text)
}

/// The usage line.
fn usage(alloc: Global) -> Result<Vec<u8>, NoMemory>
    ensures { IfOk result (λ text. text.items ≡ usage_text) }
{
    let mut text = bytes_of(alloc, USAGE)?;
    append(&mut text, DICTIONARY_USAGE)?;
    append(&mut text, LAST_USAGE)?;
    Ok(text)
}

/// The bytes of the line that tells a status.
fn status_line(alloc: Global, status: Status) -> Result<Vec<u8>, NoMemory>
    ensures { IfOk result (λ text. text.items ≡ status_text status) }
{
    match status {
        Status::Done => Ok(Vec::new(alloc)),
        Status::Refused(refusal) => refusal_line(alloc, refusal),
        Status::Usage => usage(alloc),
        Status::ReadFault(which) => cannot_read(alloc, which),
        Status::WriteFault => bytes_of(alloc, b"vfault: cannot write"),
        Status::NoMemory => bytes_of(alloc, b"vfault: out of memory"),
        Status::GoodLoop(time) => good_loop(alloc, time),
        Status::TooLong(which) => too_long(alloc, which),
    }
}

/// The line that tells a status, without its end; it has no bytes where all went well.
pub fn line(alloc: Global, status: &Status) -> Result<Text, NoMemory>
    ensures { IfOk result (λ text. text ≡ status_text status.now) }
{
    let bytes = status_line(alloc, *status)?;
    Ok(Text::from_vec(bytes))
}
