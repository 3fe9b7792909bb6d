// The words of the command line.

ghost use Rattle.std.specs.Prelude.{◌≡◌, IfSome, option_map};
ghost use Rattle.vf_words.specs.Words.{workers_of, place_of, seed_of, size_of, source_of, design_form, is_plan_form, dictionary_form, grade_form, certify_form, certificate_form, last_form};
ghost use Rattle.vf_words.specs.Words.{soak_form, three_words, plan_words, last_words, four_words, five_words, form_of, bytes_of, Fits};
ghost use Rattle.vf_words.specs.Forms.{plain_source, plain_form};

use crate::number::number_between;
use v_elab::Mode;
use vf_base::{MAX_FAULTS, MAX_SOAK_SIZE, MAX_WORKERS};

/// A design: its file, the name of its top module, and whether its blocks may be nodes.
#[derive(Clone, Copy, Debug)]
pub struct Source<'w> {
    pub design: &'w str,
    pub top: &'w str,
    pub mode: Mode,
}

/// What the program is asked for.
#[derive(Clone, Copy, Debug)]
pub enum Form<'w> {
    /// The report on the faults that a plan's file lists, by so many workers.
    Grade {
        source: Source<'w>,
        plan: &'w str,
        workers: u32,
    },
    /// How large the design is.
    Check(Source<'w>),
    /// The faults that can be listed, with their classes.
    Faults(Source<'w>),
    /// The totals of a design of so many registers that is drawn from a number, by so many workers.
    Soak {
        number: u32,
        size: u32,
        workers: u32,
    },
    /// The dictionary of the faults that a plan's file lists.
    Dict {
        source: Source<'w>,
        plan: &'w str,
    },
    /// The faults of a plan's file that fit what the response's file says a tester observed.
    Diagnose {
        source: Source<'w>,
        plan: &'w str,
        response: &'w str,
    },
    /// The certificate of the fault that stands at a place, from 1, in the list of a plan's file.
    Certify {
        source: Source<'w>,
        plan: &'w str,
        fault: u32,
    },
    /// Whether each line of a certificate's file is followed.
    Audit {
        source: Source<'w>,
        plan: &'w str,
        cert: &'w str,
    },
    /// The strobes of a plan's file that are enough.
    Pick {
        source: Source<'w>,
        plan: &'w str,
    },
}

/// So many workers as a word says.
fn workers_of(word: &str) -> Option<u32>
    ensures { result ≡ workers_of word.now }
{
    number_between(word, 1, MAX_WORKERS)
}

/// The place of a listed fault, from 1, that a word says.
fn place_of(word: &str) -> Option<u32>
    ensures { result ≡ place_of word.now }
{
    number_between(word, 1, MAX_FAULTS as u32)
}

/// The design of these words, where both have bytes.
fn source_of<'w>(design: &'w str, top: &'w str, mode: Mode) -> Option<Source<'w>>
    ensures { option_map plain_source result ≡ source_of design.now top.now mode }
{
    if design.is_empty() || top.is_empty() {
        return None;
    }
    Some(Source { design, top, mode })
}

/// The form over a design alone that the word names.
fn design_form<'w>(form: &str, source: Source<'w>) -> Option<Form<'w>>
    ensures { option_map plain_form result ≡ design_form form.now (plain_source source.entry) }
{
    if form == "check" {
        return Some(Form::Check(source));
    }
    if form == "faults" {
        return Some(Form::Faults(source));
    }
    None
}

/// Whether the word names a form over a design and a plan with no word behind the top's name.
fn is_plan_form(form: &str) -> bool
    ensures { result ≡ is_plan_form form.now }
{
    form == "dict" || form == "pick"
}

/// The form over the dictionary of a design and a plan that the word names.
fn dictionary_form<'w>(form: &str, source: Source<'w>, plan: &'w str) -> Option<Form<'w>>
    ensures { option_map plain_form result ≡ dictionary_form form.now (plain_source source.entry) plan.now }
{
    if plan.is_empty() {
        return None;
    }
    if form == "dict" {
        return Some(Form::Dict { source, plan });
    }
    if form == "pick" {
        return Some(Form::Pick { source, plan });
    }
    None
}

/// The report on a design and a plan, where the last word is a number of workers.
fn grade_form<'w>(source: Source<'w>, plan: &'w str, workers: &str) -> Option<Form<'w>>
    ensures { option_map plain_form result ≡ grade_form (plain_source source.entry) plan.now (workers_of workers.now) }
{
    let workers = workers_of(workers)?;
    Some(Form::Grade {
        source,
        plan,
        workers,
    })
}

/// The certificate of a fault of a design and a plan, where the last word is the place of a fault.
fn certify_form<'w>(source: Source<'w>, plan: &'w str, fault: &str) -> Option<Form<'w>>
    ensures { option_map plain_form result ≡ certify_form (plain_source source.entry) plan.now (place_of fault.now) }
{
    let fault = place_of(fault)?;
    Some(Form::Certify {
        source,
        plan,
        fault,
    })
}

/// The form of certificates over a design, a plan and a last word that the word names.
fn certificate_form<'w>(
    form: &str,
    source: Source<'w>,
    plan: &'w str,
    last: &'w str,
) -> Option<Form<'w>>
    ensures { option_map plain_form result ≡ certificate_form form.now (plain_source source.entry) plan.now last.now }
{
    if form == "certify" {
        return certify_form(source, plan, last);
    }
    if form == "audit" {
        return Some(Form::Audit {
            source,
            plan,
            cert: last,
        });
    }
    None
}

/// The form over a design, a plan and a last word, where the words are of it.
fn last_form<'w>(form: &str, source: Source<'w>, plan: &'w str, last: &'w str) -> Option<Form<'w>>
    ensures { option_map plain_form result ≡ last_form form.now (plain_source source.entry) plan.now last.now }
{
    if plan.is_empty() || last.is_empty() {
        return None;
    }
    if form == "grade" {
        return grade_form(source, plan, last);
    }
    if form == "diagnose" {
        return Some(Form::Diagnose {
            source,
            plan,
            response: last,
        });
    }
    certificate_form(form, source, plan, last)
}

/// Three words of a form, if they are of it, in a mode.
fn three_words<'w>(form: &str, design: &'w str, top: &'w str, mode: Mode) -> Option<Form<'w>>
    ensures { option_map plain_form result ≡ three_words form.now design.now top.now mode }
{
    match source_of(design, top, mode) {
        Some(source) => design_form(form, source),
        None => None,
    }
}

/// Four words of a form over a design and a plan, if they are of it, in a mode.
fn plan_words<'w>(
    form: &str,
    design: &'w str,
    plan: &'w str,
    top: &'w str,
    mode: Mode,
) -> Option<Form<'w>>
    ensures { option_map plain_form result ≡ plan_words form.now design.now plan.now top.now mode }
{
    match source_of(design, top, mode) {
        Some(source) => dictionary_form(form, source, plan),
        None => None,
    }
}

/// Five words of a form over a design, a plan and a last word, if they are of it, in a mode.
fn last_words<'w>(
    form: &str,
    design: &'w str,
    plan: &'w str,
    top: &'w str,
    last: &'w str,
    mode: Mode,
) -> Option<Form<'w>>
    ensures { option_map plain_form result ≡ last_words form.now design.now plan.now top.now last.now mode }
{
    match source_of(design, top, mode) {
        Some(source) => last_form(form, source, plan, last),
        None => None,
    }
}

/// The numbers of a generated design, if each is within its limits.
fn soak_form<'w>(number: &str, size: &str, workers: &str) -> Option<Form<'w>>
    ensures { option_map plain_form result ≡ soak_form (seed_of number.now) (size_of size.now) (workers_of workers.now) }
{
    let number = number_between(number, 0, u32::MAX)?;
    let size = number_between(size, 1, MAX_SOAK_SIZE)?;
    let workers = workers_of(workers)?;
    Some(Form::Soak {
        number,
        size,
        workers,
    })
}

/// Four words of a form, if they are of it.
fn four_words<'w>(form: &str, first: &'w str, second: &'w str, third: &'w str) -> Option<Form<'w>>
    ensures { option_map plain_form result ≡ four_words form.now first.now second.now third.now }
{
    if form == "soak" {
        return soak_form(first, second, third);
    }
    if is_plan_form(form) {
        return plan_words(form, first, second, third, Mode::Usual);
    }
    if third != "strict" {
        return None;
    }
    three_words(form, first, second, Mode::Strict)
}

/// Five words of a form, if they are of it.
fn five_words<'w>(
    form: &str,
    design: &'w str,
    plan: &'w str,
    top: &'w str,
    last: &'w str,
) -> Option<Form<'w>>
    ensures { option_map plain_form result ≡ five_words form.now design.now plan.now top.now last.now }
{
    if !is_plan_form(form) {
        return last_words(form, design, plan, top, last, Mode::Usual);
    }
    if last != "strict" {
        return None;
    }
    plan_words(form, design, plan, top, Mode::Strict)
}

/// The form of the words, if they are of one.
fn form_of(words: &[String]) -> Option<Form<'_>>
    ensures { option_map plain_form result ≡ form_of (bytes_of words.now) }
{
    match words {
        [form, design, top] => {
            three_words(form.as_str(), design.as_str(), top.as_str(), Mode::Usual)
        }
        [form, first, second, third] => four_words(
            form.as_str(),
            first.as_str(),
            second.as_str(),
            third.as_str(),
        ),
        [form, design, plan, top, last] => five_words(
            form.as_str(),
            design.as_str(),
            plan.as_str(),
            top.as_str(),
            last.as_str(),
        ),
        [form, design, plan, top, last, mode] => {
            if mode.as_str() != "strict" {
                return None;
            }
            last_words(
                form.as_str(),
                design.as_str(),
                plan.as_str(),
                top.as_str(),
                last.as_str(),
                Mode::Strict,
            )
        }
        _ => None,
    }
}

/// The form of the words, if they are of one; its numbers are within their limits.
pub fn read_words(words: &[String]) -> Option<Form<'_>>
    ensures form { option_map plain_form result ≡ form_of (bytes_of words.now) }
    ensures fits { IfSome result (λ form. Fits (plain_form form)) }
{
    form_of(words)
}
