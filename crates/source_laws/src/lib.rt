//! What each flat design of a text keeps: all rules of flat designs (IEEE 1364-2001, clause 2 for tokens and names, clause 9 for processes, clause 12 for the
//! hierarchy, annex A for what a text spells).
//!
//! `flat_laws` proves the rules one by one. Here `specs/Ascending` and `specs/Words` have what the tokens of a text keep, `specs/Items` and `specs/Declared` what
//! the items that they spell keep, `specs/Bodies` why no two statements of a process stand at one place, `specs/ObjectBits`, `specs/GateNames` and `specs/Sites` why
//! no two sites have one name; `specs/KeptRules` draws the conclusion. The functions do nothing when they run: their contracts are the laws.
#![tactic(auto)]

ghost use Rattle.source_laws.specs.KeptRules.{TextsKeepRules};
ghost use Rattle.source_laws.specs.Texts.{TextsGiveSourceUnits, TextsGiveNamedUnits};
ghost use Rattle.source_laws.specs.NamedRules.{NamedDesignsKeepRules};

/// In the unit that a text spells within the levels that are read, each item has at most as many levels, braces hold something, and gates have the inputs of
/// their kinds.
pub fn source_units()
    ensures { TextsGiveSourceUnits }
{}

/// In the unit that a text spells, declared names are spelled as names are, and each declaration of a module has a place of its own.
pub fn named_units()
    ensures { TextsGiveNamedUnits }
{}

/// Each flat design of the unit that a text spells within the levels that are read keeps the rules of flat designs.
pub fn kept()
    ensures { TextsKeepRules }
{}

/// The flat design of a unit whose items are those of a text, and whose names are spelled as a text spells them, keeps the rules of flat designs, if no two
/// statements of one of its processes stand at one place, as `source_laws` proves of each text's.
pub fn named_kept()
    ensures { NamedDesignsKeepRules }
{}
