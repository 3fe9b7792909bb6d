// Instances that are walked.

ghost use Rattle.std.specs.Prelude.{◌≡◌};

use crate::modules::Modules;
use elab_items::{Here, PortJoined};
use instance_checks::{Child, Formals};
use module_scope::Given;
use std::rc::Rc;
use v_names::Scope;
use v_tree::Module;
use vf_base::Text;

/// The instance whose items are walked, among all modules.
#[derive(Clone, Copy)]
pub struct Site<'m, 'h, 'j, 'u> {
    pub modules: &'m Modules<'u>,
    pub here: &'h Here<'j, 'u>,
}

/// An instance that is about to be walked: its module and what that offers, the parameters that are given, its path and its depth, and its ports
/// that are joined.
#[derive(Drop)]
pub struct Entrance<'w, 'u> {
    pub module: &'u Module,
    pub formals: &'w Formals<'u>,
    pub given: &'w [Given],
    pub path: Rc<Text>,
    pub depth: u8,
    pub joins: &'w [PortJoined],
}

/// The module of the instances of an item, with the parameters that they set, and its scope beside the one in which they stand.
#[derive(Clone, Copy)]
pub struct Inner<'w, 'u> {
    pub module: &'u Module,
    pub given: &'w [Given],
    pub child: Child<'w, 'u>,
}
