// What a module offers to its instances.

ghost use Rattle.std.specs.Prelude.{◌≡◌, IfOk, not};
ghost use Rattle.v_tree.specs.Trees.{SourceModule};
ghost use Rattle.v_tree.specs.Views.{module_of};
ghost use Rattle.v_names.specs.Names.{Declaration as SourceDeclaration, is_port, of_name, names_declared};
ghost use Rattle.v_names.specs.Readings.{is_empty};
ghost use Rattle.v_elab.specs.Connections.{port_direction};
ghost use Rattle.instance_checks.specs.Offered.{AreFormals};
ghost use Rattle.instance_checks.specs.Ports.{is_no_port};

use crate::name_lists::{Names, names_of_heads, open_parameters};
use module_scope::{Declaration, Declared, NameMap, declarations_by_name, declared_names};
use std::alloc::Global;
use v_tree::{Connection, Direction, Module};
use vf_base::{NoMemory, Text};

/// What a module offers to its instances: the parameters that they may set, its ports in order, and what its names are declared as.
#[derive(Drop)]
pub struct Formals<'m> {
    parameters: Names<'m>,
    ports: Names<'m>,
    declared: NameMap<'m, Declaration<'m>>,
}

impl<'m> Formals<'m> {
    /// What a module offers.
    pub fn of(alloc: Global, module: &'m Module) -> Result<Formals<'m>, NoMemory>
        ensures { IfOk result (λ formals. AreFormals (module_of «module».now) formals) }
    {
        let list = declared_names(alloc, module)?;
        let parameters = open_parameters(alloc, &list)?;
        let ports = names_of_heads(alloc, &module.ports)?;
        let declared = declarations_by_name(alloc, &list)?;
        Ok(Formals {
            parameters,
            ports,
            declared,
        })
    }

    /// The parameters that an instance may set.
    pub fn parameters(&self) -> &Names<'m>
        ensures { result.now ≡ self.now.parameters }
    {
        &self.parameters
    }

    /// The names in the list of ports.
    pub fn ports(&self) -> &Names<'m>
        ensures { result.now ≡ self.now.ports }
    {
        &self.ports
    }

    /// The direction of a port; none where its name is that of no port.
    pub fn direction(&self, name: &Text) -> Option<Direction>
        ensures { (m : SourceModule) → AreFormals m self.now → result ≡ port_direction m name.now }
    {
        match self.declared.get(name.as_bytes()) {
            Some(
                Declaration {
                    declared: Declared::Port { direction, .. },
                    ..
                },
            ) => Some(direction),
            _ => None,
        }
    }

    /// Whether a name is that of no port.
    pub fn is_no_port(&self, name: &Text) -> bool
        ensures { (m : SourceModule) → AreFormals m self.now → result ≡ is_no_port m name.now }
    {
        self.direction(name).is_none()
    }
}
