//! Laws of the flat design of a source text: it keeps the rules of every flat design (IEEE 1364-2001, clause 12 for the hierarchy, clauses 4, 6, 7 and
//! 9 for what stands in it).
//!
//! `specs/Made` has what a flat design is made of, `specs/Hierarchy` the walk and how a fact of each item is one of all its parts, `specs/Names` scopes,
//! constants and names, `specs/Sizes` the sizes of what stands in a design, `specs/Drivers` who writes its objects and the order of its nodes, and `specs/Blocks`
//! what blocks and processes name and write. `specs/Rules` and `specs/Names/NamedUnits` have the laws that the functions here state. They do nothing when they
//! run: their contracts are the laws.
#![tactic(auto)]

ghost use Rattle.flat_laws.specs.Rules.{FlatDesignsAreOrdered, FlatDesignsAreLow};
ghost use Rattle.flat_laws.specs.Names.NamedUnits.{NamedDesignsAreSized, NamedDesignsAreWritten};

/// Each flat design is within its limits. Its nodes are acyclic and stand by rank, write net pieces alone, and no two of them write one piece.
pub fn ordered()
    ensures { FlatDesignsAreOrdered }
{}

/// The nodes and processes of a unit whose items have at most 256 levels have at most as many.
pub fn low()
    ensures { FlatDesignsAreLow }
{}

/// In a unit whose names are spelled as a text spells them, objects and joined names have the bits that their bounds span, gates have terminals of one bit,
/// blocks and processes are sized, and waits are on bits of objects.
pub fn sized()
    ensures { NamedDesignsAreSized }
{}

/// In such a unit what nodes and processes name is there with its width, the inputs of nodes are what they read, processes write variables alone, and
/// blocks that are nodes assign each of their outputs whole on every path before it is read.
pub fn written()
    ensures { NamedDesignsAreWritten }
{}
