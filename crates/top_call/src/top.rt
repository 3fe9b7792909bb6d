// The top call.

ghost use Rattle.std.specs.Prelude.{◌≡◌, ◌≤◌, ◌+◌, ◌↔◌, ◌⊎◌, ◌++◌, ℕ, List, length, IfSome, Some, None};
ghost use Rattle.vf_base.specs.Counts.{Rose};
ghost use Rattle.vf_base.specs.Shelf.{Files};
ghost use Rattle.vf_status.specs.declared.status.Refusal.{Refusal as Reason};
ghost use Rattle.vf_status.specs.declared.status.Which.{Which};
ghost use Rattle.vf_words.specs.Words.{Form as Asked, form_of, bytes_of};
ghost use Rattle.vf_words.specs.Forms.{plain_form};
ghost use Rattle.top_call.specs.Answers.{Answer, Outputs, Refuses, Lacks, Exceeds, Loops, by_workers, IsAnswer};
ghost use Rattle.top_call.specs.Inputs.{HasInput};
ghost use Rattle.top_call.specs.Outside.{IfTold, counts_of, ReadFailed, ToldLong, Answers, IsOutput, PutsSome, PutsInFew, PutsNothing, Keeps, CanEnd, EndsDone, files_named, files_for};

use crate::law::answers_exist;
use crate::make::make_output;
use crate::output::put_all;
use std::alloc::Global;
use std::sync::ledger::Ledger;
use std::thread::Threads;
use vf_base::{Gate, Shelf, Sink, Steps};
use vf_status::Status;
use vf_words::read_words;

/// The whole program, but for the outside: it reads the files that the words name, or makes up a design and a plan, and puts the output of their form.
///
/// The first counter is the calling thread's, and each worker has one of the others; the output is the same for every number of workers. Of the statuses
/// the first of this order comes that is due: the words; reading the design, its length, its text; reading the plan, its length, its text; a dictionary that
/// is too large, or a place at which no fault is listed; reading the response or the certificate, its length, the response's text; a loop of the good machine;
/// writing. Want of memory can come at any point but with the words. Nothing is put before the whole text is made. Before a worker begins a shard of faults it
/// calls the gate; what stands on a dictionary, certificates and their audits are made by the calling thread alone.
pub fn vfault<R: Threads + Sync, S: Shelf, K: Sink, G: Gate + Sync, L: Ledger + Send + Sync>(
    rt: &R,
    alloc: Global,
    words: &[String],
    shelf: &mut S,
    sink: &mut K,
    gate: &G,
    steps: &mut [Steps<L>],
) -> Status
    requires { 65 ≤ length steps.old }

    // Where it is done, the sink gained the output of the form over what the shelf holds; and what its lines say holds in every legal order.
    ensures done { result ≡ Status.Done → IfSome (form_of (bytes_of words.now)) (λ form. IfTold (files_for form (S.held shelf.old)) (λ files. IfTold (K.contents sink.old)
        (λ held. (text : List ℕ) × IsOutput form files text × (K.contents sink.new ≡ Some (held ++ text))))) }

    // The bytes are the same for each number of workers: the sink gained whatever is the output of the form over these files by any number of them.
    ensures same_bytes { result ≡ Status.Done → IfSome (form_of (bytes_of words.now)) (λ form. IfTold (files_for form (S.held shelf.old)) (λ files. IfTold (K.contents sink.old)
        (λ held. (workers : ℕ) (text : List ℕ) → IsAnswer (by_workers workers form) files (Outputs text) → K.contents sink.new ≡ Some (held ++ text)))) }

    // The words are of no form.
    ensures usage { (result ≡ Status.Usage) ↔ (form_of (bytes_of words.now) ≡ None) }

    // The status is one with which the form can end: `soak` is never refused and reads nothing, a refusal is for a reason of a text that the form names, and the good
    // machine loops only where it runs.
    ensures of_the_form { IfSome (form_of (bytes_of words.now)) (λ form. CanEnd form result) }

    // The design, the plan or the response is refused for this reason, the dictionary is too large, or no fault is listed at the place.
    ensures refused { (why : Reason) → result ≡ Status.Refused why → Answers (form_of (bytes_of words.now)) (S.held shelf.old) (Refuses why) }

    // The good machine loops.
    ensures loops { (time : ℕ) → result ≡ Status.GoodLoop time → Answers (form_of (bytes_of words.now)) (S.held shelf.old) (Loops time) }

    // A read failed, for the plan over a design that is there and isn't refused, for the response or the certificate over a plan that is so too; or the shelf tells
    // that the file isn't there.
    ensures read_fault { (which : Which) → result ≡ Status.ReadFault which → IfSome (form_of (bytes_of words.now)) (λ form.
        ReadFailed form (files_for form (S.held shelf.old)) which (counts_of ⟦<S as Shelf>⟧ shelf.old) (counts_of ⟦<S as Shelf>⟧ shelf.new)
        ⊎ ((files : Files) × (files_for form (S.held shelf.old) ≡ Some files) × IsAnswer form files (Lacks which))) }

    // The shelf tells that the file is too long, or it tells nothing and answered so.
    ensures too_long { (which : Which) → result ≡ Status.TooLong which → IfSome (form_of (bytes_of words.now)) (λ form.
        ToldLong (files_for form (S.held shelf.old)) which (counts_of ⟦<S as Shelf>⟧ shelf.old) (counts_of ⟦<S as Shelf>⟧ shelf.new)
        ⊎ ((files : Files) × (files_for form (S.held shelf.old) ≡ Some files) × IsAnswer form files (Exceeds which))) }

    // A put failed after a proper part of the output.
    ensures write_fault { result ≡ Status.WriteFault → Rose (K.faults sink.old) (K.faults sink.new)
        × IfSome (form_of (bytes_of words.now)) (λ form. IfTold (files_for form (S.held shelf.old)) (λ files. (text : List ℕ) × IsOutput form files text
        × PutsSome (K.contents sink.old) text (K.contents sink.new))) }

    // Want of memory: nothing was put, or a proper part of the output.
    ensures no_memory { result ≡ Status.NoMemory → (K.contents sink.new ≡ K.contents sink.old)
        ⊎ IfSome (form_of (bytes_of words.now)) (λ form. IfTold (files_for form (S.held shelf.old)) (λ files. (text : List ℕ) × IsOutput form files text
        × PutsSome (K.contents sink.old) text (K.contents sink.new))) }

    // Else nothing was put.
    ensures nothing_put { PutsNothing result → (K.contents sink.new ≡ K.contents sink.old) × (K.puts sink.new ≡ K.puts sink.old) }

    // The status is that of the answer, unless memory is wanting, a read failed before anything else had decided, or a put of the output failed.
    ensures exactly { (form : Asked) (files : Files) (answer : Answer) → form_of (bytes_of words.now) ≡ Some form → files_for form (S.held shelf.old) ≡ Some files → IsAnswer form files answer →
        Keeps form files answer (counts_of ⟦<S as Shelf>⟧ shelf.old) (counts_of ⟦<S as Shelf>⟧ shelf.new) (K.faults sink.old) (K.faults sink.new) result }

    // An answer exists: where the files say a design and spell a plan, as far as the form needs them, and the good machine doesn't loop where it runs, the form is done, unless memory is wanting, a
    // read failed before anything else had decided, or a put of the output failed. Of `soak` nothing is asked of files.
    ensures completes { (form : Asked) (files : Files) → form_of (bytes_of words.now) ≡ Some form → files_for form (S.held shelf.old) ≡ Some files → HasInput form files →
        EndsDone form files (counts_of ⟦<S as Shelf>⟧ shelf.old) (counts_of ⟦<S as Shelf>⟧ shelf.new) (K.faults sink.old) (K.faults sink.new) result }

    // The sink is put to at most as often as the text has bytes, and once more at most than it took bytes; where the shelf tells its files, the text is the output.
    ensures few_puts { IfSome (form_of (bytes_of words.now)) (λ form. (K.puts sink.new ≡ K.puts sink.old)
        ⊎ ((text : List ℕ) × IfTold (files_for form (S.held shelf.old)) (λ files. IsOutput form files text)
        × PutsInFew (K.contents sink.old) text (K.contents sink.new) (K.puts sink.old) (K.puts sink.new))) }

    // The shelf is read at most as often as the form names files: `soak` reads none, and where the words are of no form nothing is read.
    ensures few_reads { (S.reads shelf.old ≤ S.reads shelf.new) × (S.reads shelf.new ≤ S.reads shelf.old + files_named (form_of (bytes_of words.now))) }
{
    answers_exist();
    let Some(form) = read_words(words) else {
        return Status::Usage;
    };
    let output = match make_output(rt, alloc, shelf, form, gate, steps) {
        Ok(output) => output,
        Err(status) => return status,
    };
    put_all(sink, output.as_slice())
}
