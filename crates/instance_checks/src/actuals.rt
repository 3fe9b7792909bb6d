// What stands in the connections of ports.

ghost use Rattle.std.specs.Prelude.{◌≡◌, ◌+◌, IfOk, OnOk, option_map, is_some};
ghost use Rattle.v_tree.specs.Trees.{SourceModule};
ghost use Rattle.v_tree.specs.Views.{expression_of, expression_in, target_of};
ghost use Rattle.v_names.specs.Constants.{optional_faults};
ghost use Rattle.v_names.specs.Scopes.{declared_width, is_vector};
ghost use Rattle.v_names.specs.ScopeViews.{entry_of};
ghost use Rattle.v_width.specs.Targets.{target_of as target_spelled};
ghost use Rattle.v_elab.specs.Connections as plain;
ghost use Rattle.v_elab.specs.Connections.{joined_name, port_width, port_direction, output_actual_faults, actual_faults_by};
ghost use Rattle.name_checks.specs.Noted.{noted};
ghost use Rattle.instance_checks.specs.Children.{IsChild, vector_width};
ghost use Rattle.instance_checks.specs.Offered.{name_seen};

use crate::offers::Formals;
use expr_sizes::target_of;
use item_checks::{note_net_target, note_optional_size, note_size};
use name_checks::{FirstFault, note_fixed_target};
use std::alloc::Global;
use v_names::{Entry, Found, Reason, Scope, place_of_expr, span};
use v_tree::{Direction, Expr, Target};
use vf_base::{NoMemory, Text};

/// The module of an instance with its scope, and the scope in which the instance stands.
#[derive(Clone, Copy)]
pub struct Child<'c, 'm> {
    pub formals: &'c Formals<'m>,
    pub inner: &'c Scope<'m>,
    pub outer: &'c Scope<'m>,
}

/// The width of a net or a variable; none of anything else.
fn vector_width(entry: Option<Entry>) -> Option<u64>
    ensures { result ≡ vector_width (option_map entry_of entry) }
{
    match entry {
        Some(Entry::Net { high, low, .. }) => Some(span(high, low)),
        Some(Entry::Reg { high, low, .. }) => Some(span(high, low)),
        _ => None,
    }
}

/// The declared width of a name; 0 where it has none.
fn declared_width(entry: Option<Entry>) -> u64
    ensures { result ≡ declared_width (option_map entry_of entry) }
{
    match entry {
        Some(Entry::Net { high, low, .. }) => span(high, low),
        Some(Entry::Reg { high, low, .. }) => span(high, low),
        Some(Entry::Memory { high, low, .. }) => span(high, low),
        _ => 0,
    }
}

/// Whether an actual is a whole net or variable of its port's width, so that both are one object.
fn is_joined(child: Child<'_, '_>, port: &Text, expr: &Expr) -> bool
    ensures { (c : plain.Child) → IsChild c child.entry → result ≡ is_some (joined_name c port.now (expression_of expr.now)) }
{
    match expr {
        Expr::Name { name, .. } => match vector_width(child.outer.lookup(name)) {
            None => false,
            Some(width) => width == declared_width(child.inner.lookup(port)),
        },
        _ => false,
    }
}

impl Child<'_, '_> {
    /// The declared width of a port; 0 where its name has none.
    pub fn port_width(self, port: &Text) -> u64
        ensures { (c : plain.Child) → IsChild c self.entry → result ≡ port_width c port.now }
    {
        declared_width(self.inner.lookup(port))
    }

    /// The net or variable that an actual is, where it is a whole one of its port's width: it and the port are one object.
    pub fn joined_name<'e>(self, port: &Text, expr: &'e Expr) -> Option<&'e Text>
        ensures { (c : plain.Child) → IsChild c self.entry → option_map name_seen result ≡ joined_name c port.now (expression_of expr.now) }
    {
        match expr {
            Expr::Name { name, .. } => {
                if is_joined(self, port, expr) {
                    Some(name)
                } else {
                    None
                }
            }
            _ => None,
        }
    }
}

/// Notes what is wrong with the actual of an output: it is a target whose indexes are constants.
fn note_output_actual(
    alloc: Global,
    scope: &Scope<'_>,
    expr: &Expr,
    first: &mut FirstFault,
) -> Result<(), NoMemory>
    ensures { OnOk result (first.new ≡ noted first.old (output_actual_faults scope.now (expression_of expr.now) (target_spelled (expression_of expr.now)))) }
{
    match target_of(alloc, expr)? {
        None => {
            first.note(Found {
                place: place_of_expr(expr),
                reason: Reason::BadConnection,
            });
            note_size(alloc, scope, expr, first)?;
            Ok(())
        }
        Some(target) => {
            note_net_target(alloc, scope, &target, first)?;
            note_fixed_target(alloc, scope, &target, first)?;
            Ok(())
        }
    }
}

/// Notes what is wrong with the actual of a port.
pub fn note_actual(
    alloc: Global,
    child: Child<'_, '_>,
    port: &Text,
    expr: &Expr,
    first: &mut FirstFault,
) -> Result<(), NoMemory>
    ensures { OnOk result ((c : plain.Child) → IsChild c child.entry →
        first.new ≡ noted first.old (actual_faults_by c.outer_scope (joined_name c port.now (expression_of expr.now)) (port_direction c.inner port.now) (expression_of expr.now))) }
{
    if is_joined(child, port, expr) {
        note_size(alloc, child.outer, expr, first)?;
        return Ok(());
    }
    match child.formals.direction(port) {
        Some(Direction::Output) => {
            note_output_actual(alloc, child.outer, expr, first)?;
            Ok(())
        }
        _ => {
            note_size(alloc, child.outer, expr, first)?;
            Ok(())
        }
    }
}
