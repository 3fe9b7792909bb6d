// The parameters that an instance sets.

ghost use Rattle.std.specs.Prelude.{◌≡◌, ◌++◌, ℕ, List, [], OnOk, IfOk, map, option_map, is_some};
ghost use Rattle.vf_base.specs.Base.{source_place};
ghost use Rattle.v_tree.specs.Trees.{Identifier, SourceModule, has_name};
ghost use Rattle.v_tree.specs.Views.{expression_in, connection_of};
ghost use Rattle.v_names.specs.SizeViews.{signed_value};
ghost use Rattle.v_elab.specs.Connections.{open_parameters, connected_name, missing_fault, given_fault, name_before, given_faults, given_parameter, given_parameters, value_or_bit};
ghost use Rattle.name_checks.specs.Noted.{noted};
ghost use Rattle.module_scope.specs.Kept.{kept};
ghost use Rattle.module_scope.specs.Givens.{given_parameter as given_seen};
ghost use Rattle.instance_checks.specs.Offered.{AreFormals, name_seen};

use crate::offers::Formals;
use four_value::{Bit, Vec4};
use item_checks::{note_optional_size, note_where};
use module_scope::{Given, NameMap};
use name_checks::FirstFault;
use std::alloc::Global;
use v_names::{Constant, Found, Reason, Scope, constant_of};
use v_tree::Connection;
use vf_base::{NoMemory, Place, Text};

/// Notes that there is nothing for a connection: a name is unknown, a position is a bad connection.
pub fn note_missing(connection: &Connection, first: &mut FirstFault)
    ensures { first.new ≡ noted first.old (missing_fault connection.now.name (source_place connection.now.place)) }
{
    let reason = match &connection.name {
        None => Reason::BadConnection,
        Some(_) => Reason::UnknownName,
    };
    first.note(Found {
        place: connection.place,
        reason,
    });
}

/// Notes what is wrong with what a connection sets, and keeps its name.
fn note_given_name<'m>(
    name: Option<&'m Text>,
    connection: &Connection,
    earlier: &mut NameMap<'m, Place>,
    first: &mut FirstFault,
) -> Result<(), NoMemory>
    ensures noted { OnOk result ((names : List Identifier) → ((other : Identifier) → is_some (kept earlier.old other) ≡ has_name names other) →
        first.new ≡ noted first.old (given_fault names (connection_of connection.now) (option_map name_seen name.entry))) }
    ensures earlier { OnOk result ((names : List Identifier) → ((other : Identifier) → is_some (kept earlier.old other) ≡ has_name names other) →
        (other : Identifier) → is_some (kept earlier.new other) ≡ has_name (name_before (option_map name_seen name.entry) names) other) }
{
    match name {
        None => {
            note_missing(connection, first);
            Ok(())
        }
        Some(name) => {
            let twice = earlier.get(name.as_bytes()).is_some();
            note_where(twice, connection.place, Reason::DeclaredTwice, first);
            earlier.put(name.as_bytes(), connection.place)?;
            Ok(())
        }
    }
}

/// Notes what is wrong with the parameters that an instance sets.
pub fn note_given<'m>(
    alloc: Global,
    scope: &Scope<'_>,
    formals: &Formals<'m>,
    connections: &'m [Connection],
    first: &mut FirstFault,
) -> Result<(), NoMemory>
    ensures { OnOk result ((m : SourceModule) → AreFormals m formals.now → first.new ≡ noted first.old (given_faults scope.now (open_parameters m) 0 [] (map connection_of connections.now))) }
{
    let mut earlier = NameMap::new(alloc);
    'connections: for (position, connection) in connections.iter().enumerate() {
        let name = formals.parameters().connected(position, connection);
        note_given_name(name, connection, &mut earlier, first)?;
        note_optional_size(alloc, scope, &connection.actual, first)?;
    }
    Ok(())
}

/// A constant; what is refused counts as one unsigned bit 0.
fn value_or_bit(constant: Option<Constant>) -> Constant
    ensures { signed_value result ≡ value_or_bit (option_map signed_value constant) }
{
    match constant {
        None => Constant {
            value: Vec4::of_bit(Bit::Zero),
            signed: false,
        },
        Some(constant) => constant,
    }
}

/// Puts the parameter that a connection sets behind others, if it sets one.
fn push_given(
    alloc: Global,
    scope: &Scope<'_>,
    name: Option<&Text>,
    connection: &Connection,
    given: &mut Vec<Given>,
) -> Result<(), NoMemory>
    ensures { OnOk result (map given_seen given.new.items ≡ map given_seen given.old.items ++ given_parameter scope.now (option_map name_seen name.entry) (expression_in connection.now.actual)) }
{
    let Some(name) = name else {
        return Ok(());
    };
    match &connection.actual {
        None => Ok(()),
        Some(actual) => {
            let constant = value_or_bit(constant_of(alloc, actual, scope, 0)?);
            let name = Text::from_bytes(alloc, name.as_bytes())?;
            given.push(Given {
                name,
                value: constant.value,
                signed: constant.signed,
            })?;
            Ok(())
        }
    }
}

/// The parameters that an instance sets, each evaluated alone in the scope where it stands.
pub fn given_parameters<'m>(
    alloc: Global,
    scope: &Scope<'_>,
    formals: &Formals<'m>,
    connections: &'m [Connection],
) -> Result<Vec<Given>, NoMemory>
    ensures { IfOk result (λ given. (m : SourceModule) → AreFormals m formals.now → map given_seen given.items ≡ given_parameters scope.now (open_parameters m) 0 (map connection_of connections.now)) }
{
    let mut given = Vec::new(alloc);
    'connections: for (position, connection) in connections.iter().enumerate() {
        let name = formals.parameters().connected(position, connection);
        push_given(alloc, scope, name, connection, &mut given)?;
    }
    Ok(given)
}
