// An instance whose items are walked.

ghost use Rattle.std.specs.Prelude.{◌≡◌, IfOk, Ok, map};
ghost use Rattle.v_tree.specs.Views.{module_of};
ghost use Rattle.v_names.specs.Names.{names};
ghost use Rattle.v_elab.specs.Walk as plain;
ghost use Rattle.elab_items.specs.Joins.{port_joined_of};
ghost use Rattle.elab_items.specs.Heres.{IsHere};

use crate::joins::{PortJoined, joins_by_name};
use elab_parts::Joining;
use module_scope::{Declaration, NameMap, declarations_by_name, declared_names};
use std::alloc::Global;
use std::rc::Rc;
use v_elab::Mode;
use v_names::Scope;
use v_tree::Module;
use vf_base::{NoMemory, Text};

/// An instance whose items are walked: what stands before its names in the hierarchy, how deep it stands, its scope, and by name its ports that are
/// joined and what its module declares.
#[derive(Drop)]
pub struct Here<'h, 'u> {
    pub mode: Mode,
    pub path: Rc<Text>,
    pub depth: u8,
    pub scope: Rc<Scope<'u>>,
    pub(crate) joins: NameMap<'h, &'h Joining>,
    pub(crate) declared: NameMap<'u, Declaration<'u>>,
}

impl<'h, 'u> Here<'h, 'u> {
    /// The instance of a module at a path and a depth (the top stands at 0), with the scope of its names and its ports that are joined.
    pub fn new(
        alloc: Global,
        mode: Mode,
        path: Rc<Text>,
        depth: u8,
        scope: Rc<Scope<'u>>,
        joins: &'h [PortJoined],
        module: &'u Module,
    ) -> Result<Here<'h, 'u>, NoMemory>
        ensures here { IfOk result (λ here. (h : plain.Here) → h.mode ≡ mode → h.instance.path ≡ path.value → h.instance.depth ≡ depth →
            h.scope ≡ scope.entry.value → h.instance.joins ≡ map port_joined_of joins.now → h.instance.inner ≡ module_of «module».now →
            names h.instance.inner h.instance.given ≡ Ok h.scope → IsHere h here) }
        ensures mode { IfOk result (λ here. here.mode ≡ mode) }
        ensures path { IfOk result (λ here. here.path.value ≡ path.value) }
        ensures depth { IfOk result (λ here. here.depth ≡ depth) }
        ensures scope { IfOk result (λ here. here.scope.value ≡ scope.entry.value) }
    {
        let joins = joins_by_name(alloc, joins)?;
        let list = declared_names(alloc, module)?;
        let declared = declarations_by_name(alloc, &list)?;
        Ok(Here {
            mode,
            path,
            depth,
            scope,
            joins,
            declared,
        })
    }
}
