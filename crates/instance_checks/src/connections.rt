// What is wrong with the connections of an instance.

ghost use Rattle.std.specs.Prelude.{◌≡◌, ◌&&◌, List, [], OnOk, map, option_map, is_some};
ghost use Rattle.v_tree.specs.Trees.{Identifier, has_name};
ghost use Rattle.v_tree.specs.Views.{expression_in, connection_of};
ghost use Rattle.v_names.specs.Constants.{optional_faults};
ghost use Rattle.v_elab.specs.Connections as plain;
ghost use Rattle.v_elab.specs.Connections.{joined_name, port_direction, actual_faults_by, name_before, port_faults, connections_faults};
ghost use Rattle.name_checks.specs.Noted.{noted};
ghost use Rattle.module_scope.specs.Kept.{kept};
ghost use Rattle.instance_checks.specs.Offered.{name_seen};
ghost use Rattle.instance_checks.specs.Children.{IsChild};

use crate::actuals::{Child, note_actual};
use crate::given::note_missing;
use item_checks::{note_optional_size, note_where};
use module_scope::NameMap;
use name_checks::FirstFault;
use std::alloc::Global;
use v_names::Reason;
use v_tree::Connection;
use vf_base::{NoMemory, Place, Text};

/// Whether a connection names a port that an earlier one connects.
fn is_twice(connection: &Connection, port: &Text, earlier: &NameMap<'_, Place>) -> bool
    ensures { (names : List Identifier) → ((other : Identifier) → is_some (kept earlier.now other) ≡ has_name names other) → result ≡ (plain.is_named connection.now.name && has_name names port.now) }
{
    connection.name.is_some() && earlier.get(port.as_bytes()).is_some()
}

/// Notes what is wrong with the actual of a port, if there is one.
fn note_optional_actual(
    alloc: Global,
    child: Child<'_, '_>,
    port: &Text,
    connection: &Connection,
    first: &mut FirstFault,
) -> Result<(), NoMemory>
    ensures { OnOk result ((c : plain.Child) → IsChild c child.entry →
        first.new ≡ noted first.old (optional_faults (λ e. actual_faults_by c.outer_scope (joined_name c port.now e) (port_direction c.inner port.now) e)
        (expression_in connection.now.actual))) }
{
    match &connection.actual {
        None => Ok(()),
        Some(actual) => {
            note_actual(alloc, child, port, actual, first)?;
            Ok(())
        }
    }
}

/// Notes what is wrong with a connection, and keeps its port.
fn note_connection<'m>(
    alloc: Global,
    child: Child<'_, 'm>,
    port: Option<&'m Text>,
    connection: &Connection,
    earlier: &mut NameMap<'m, Place>,
    first: &mut FirstFault,
) -> Result<(), NoMemory>
    ensures noted { OnOk result ((c : plain.Child) (names : List Identifier) → IsChild c child.entry → ((other : Identifier) →
        is_some (kept earlier.old other) ≡ has_name names other) → first.new ≡ noted first.old (port_faults c names (connection_of connection.now) (option_map name_seen port.entry))) }
    ensures earlier { OnOk result ((names : List Identifier) → ((other : Identifier) → is_some (kept earlier.old other) ≡ has_name names other) →
        (other : Identifier) → is_some (kept earlier.new other) ≡ has_name (name_before (option_map name_seen port.entry) names) other) }
{
    match port {
        None => {
            note_missing(connection, first);
            note_optional_size(alloc, child.outer, &connection.actual, first)?;
            Ok(())
        }
        Some(port) => {
            let twice = is_twice(connection, port, earlier);
            note_where(twice, connection.place, Reason::BadConnection, first);
            note_optional_actual(alloc, child, port, connection, first)?;
            earlier.put(port.as_bytes(), connection.place)?;
            Ok(())
        }
    }
}

/// Notes what is wrong with the connections of an instance.
pub fn note_connections<'m>(
    alloc: Global,
    child: Child<'_, 'm>,
    connections: &'m [Connection],
    first: &mut FirstFault,
) -> Result<(), NoMemory>
    ensures { OnOk result ((c : plain.Child) → IsChild c child.entry → first.new ≡ noted first.old (connections_faults c 0 [] (map connection_of connections.now))) }
{
    let mut earlier = NameMap::new(alloc);
    'connections: for (position, connection) in connections.iter().enumerate() {
        let port = child.formals.ports().connected(position, connection);
        note_connection(alloc, child, port, connection, &mut earlier, first)?;
    }
    Ok(())
}
