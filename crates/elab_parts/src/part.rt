// Parts of a design.

ghost use Rattle.std.specs.Prelude.{◌≡◌};

use crate::bits::DrivenBits;
use crate::signal::{Signal, WalkedMemory};
use four_value::GateKind;
use std::rc::Rc;
use v_names::Scope;
use v_tree::Stmt;
use v_width::SizedExpr;
use vf_base::{Place, Seq, Text};

/// A select that a node drives, by the hierarchical name of its signal.
#[derive(Drop)]
pub struct Drive {
    pub signal: Text,
    pub bits: DrivenBits,
    pub place: Place,
}

/// An expression of an instance, and what stands before its names in the hierarchy.
#[derive(Drop)]
pub struct ValueIn {
    pub path: Rc<Text>,
    pub value: SizedExpr,
}

/// An `initial` or `always` of an instance, with its targets where by itself it is of combinational form. The scope has the names of the instance.
#[derive(Drop)]
pub struct WalkedProcess<'u> {
    pub always: bool,
    pub place: Place,
    pub path: Rc<Text>,
    pub scope: Rc<Scope<'u>>,
    pub body: &'u Stmt,
    pub targets: Option<Seq<Text>>,
}

/// A part. The drives of a node stand from the left of its target.
#[derive(Drop)]
pub enum Part<'u> {
    Signal(Signal),
    Memory(WalkedMemory),
    Assign {
        drives: Seq<Drive>,
        value: ValueIn,
    },
    Gate {
        name: Text,
        kind: GateKind,
        drives: Seq<Drive>,
        path: Rc<Text>,
        terminals: Vec<SizedExpr>,
    },
    Process(WalkedProcess<'u>),
    /// An instance, before its connections and its items.
    Instance,
}
