// Names in order, each found by its hash.

ghost use Rattle.std.specs.Prelude.{◌≡◌, List, [], ◌∷◌, OnOk, IfOk, map, flat_map, option_map, is_some, slice_get};
ghost use Rattle.v_tree.specs.Trees.{Identifier, NamedPlace, SourcePorts};
ghost use Rattle.v_tree.specs.Views.{name_of, ports_of, heads_of};
ghost use Rattle.v_elab.specs.Connections.{is_open_parameter, head_names, connected_name};
ghost use Rattle.module_scope.specs.Kept.{kept};
ghost use Rattle.module_scope.specs.Declarations.{declared_seen, declaration_seen, declarations_seen};
ghost use Rattle.instance_checks.specs.Offered.{AreNames, NamesGrow, name_seen, open_name, open_names};

use module_scope::{Declaration, Declared, NameMap};
use std::alloc::Global;
use v_tree::{Connection, Heads, Name, Ports};
use vf_base::{NoMemory, Place, Text};

/// Names in order, each found by its hash.
#[derive(Drop)]
pub struct Names<'m> {
    order: Vec<&'m Text>,
    places: NameMap<'m, Place>,
}

impl<'m> Names<'m> {
    /// No names, which takes no memory.
    fn new(alloc: Global) -> Names<'m>
        ensures { AreNames [] result }
    {
        Names {
            order: Vec::new(alloc),
            places: NameMap::new(alloc),
        }
    }

    /// Puts a name behind the others.
    fn push(&mut self, name: &'m Text, place: Place) -> Result<(), NoMemory>
        ensures { OnOk result (NamesGrow (name.now ∷ []) self.old self.new) }
    {
        self.order.push(name)?;
        self.places.put(name.as_bytes(), place)?;
        Ok(())
    }

    /// The name at a position, if there is one.
    fn at(&self, position: usize) -> Option<&'m Text>
        ensures { result ≡ slice_get self.now.order.items position }
    {
        self.order.get(position).copied()
    }

    /// Whether a name is among them.
    fn has(&self, name: &Text) -> bool
        ensures { result ≡ is_some (kept self.now.places name.now) }
    {
        self.places.get(name.as_bytes()).is_some()
    }

    /// What a connection connects: by its name, or by its position; none where there is no such.
    pub fn connected(&self, position: usize, connection: &'m Connection) -> Option<&'m Text>
        ensures { (names : List Identifier) → AreNames names self.now → option_map name_seen result ≡ connected_name names position connection.now.name }
    {
        match &connection.name {
            None => self.at(position),
            Some(name) => { if self.has(name) { Some(name) } else { None } }
        }
    }
}

/// Whether an instance may set what is declared.
fn is_open(declared: Declared<'_>) -> bool
    ensures { result ≡ is_open_parameter (declared_seen declared.entry) }
{
    match declared {
        Declared::Param { is_local, .. } => !is_local,
        _ => false,
    }
}

/// Puts a declared name behind others, where an instance may set it.
fn push_open<'m>(declaration: Declaration<'m>, names: &mut Names<'m>) -> Result<(), NoMemory>
    ensures { OnOk result (NamesGrow (open_name (declaration_seen declaration.entry)) names.old names.new) }
{
    if !is_open(declaration.declared) {
        return Ok(());
    }
    names.push(declaration.name, declaration.place)?;
    Ok(())
}

/// The parameters among some declarations that an instance may set.
pub fn open_parameters<'m>(
    alloc: Global,
    declared: &[Declaration<'m>],
) -> Result<Names<'m>, NoMemory>
    ensures { IfOk result (λ names. AreNames (open_names (declarations_seen declared.now)) names) }
{
    let mut names = Names::new(alloc);
    'declared: for declaration in declared {
        push_open(*declaration, &mut names)?;
    }
    Ok(names)
}

/// Puts some names of a list of ports behind others.
fn push_names<'m>(heads: &'m [Name], names: &mut Names<'m>) -> Result<(), NoMemory>
    ensures { OnOk result (NamesGrow (map (λ (n : NamedPlace). n.name) (map name_of heads.now)) names.old names.new) }
{
    'heads: for head in heads {
        names.push(&head.name, head.place)?;
    }
    Ok(())
}

/// Puts the names of some groups of ports behind others.
fn push_groups<'m>(groups: &'m [Ports], names: &mut Names<'m>) -> Result<(), NoMemory>
    ensures { OnOk result (NamesGrow (flat_map (λ (g : SourcePorts). map (λ (n : NamedPlace). n.name) g.names) (map ports_of groups.now)) names.old names.new) }
{
    'groups: for group in groups {
        push_names(group.names.as_slice(), names)?;
    }
    Ok(())
}

/// The names of a list of ports.
pub fn names_of_heads<'m>(alloc: Global, heads: &'m Heads) -> Result<Names<'m>, NoMemory>
    ensures { IfOk result (λ names. AreNames (head_names (heads_of heads.now)) names) }
{
    let mut names = Names::new(alloc);
    match heads {
        Heads::Plain(heads) => {
            push_names(heads.as_slice(), &mut names)?;
            Ok(names)
        }
        Heads::Declared(groups) => {
            push_groups(groups.as_slice(), &mut names)?;
            Ok(names)
        }
    }
}
