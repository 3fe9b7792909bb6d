//! Worked texts, on which the definition of the flat design is evaluated (IEEE 1364-2001, clause 12).
//!
//! `specs/Examples` has small designs with their flat design in outline and, for most of them, the grades of a plan over it; `specs/Calls` has answers of the
//! definitions below; `specs/Refusals` has texts at the edge of the language, each with its refusal and its place, or accepted with its outline.
#![tactic(auto)]

ghost use Rattle.elab_examples.specs.Examples.{WorkedTexts};
ghost use Rattle.elab_examples.specs.Refusals.{TextsAtTheEdge};

/// The definitions, evaluated on each text, give the flat design and the grades that stand there.
pub fn designs()
    ensures { WorkedTexts }
{}

/// The definition, evaluated on each text, gives the refusal or the outline that stands there.
pub fn refusals()
    ensures { TextsAtTheEdge }
{}
