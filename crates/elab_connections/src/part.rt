// The assignment of a port.

ghost use Rattle.std.specs.Prelude.{◌≡◌, ◌≤◌, ◌++◌, ◌∷◌, [], false, Some, IfOk};
ghost use Rattle.vf_base.specs.Base.{source_place};
ghost use Rattle.v_design.specs.Sized.{most_bits};
ghost use Rattle.v_tree.specs.Trees.{Selected, NoIndex};
ghost use Rattle.v_tree.specs.Views as views;
ghost use Rattle.v_tree.specs.Views.{expression_of};
ghost use Rattle.v_names.specs.Readings.{reading_of, tree_in};
ghost use Rattle.v_width.specs.Targets.{whole_places};
ghost use Rattle.v_elab.specs.Connections as plain;
ghost use Rattle.v_elab.specs.Connections.{input_part, output_part};
ghost use Rattle.elab_parts.specs.PartViews.{drives_of, part_of, places_of, value_of};
ghost use Rattle.select_bits.specs.Runs.{TargetTakesRuns};
ghost use Rattle.instance_checks.specs.Children.{IsChild};
ghost use Rattle.elab_connections.specs.PathViews.{ArePaths};
ghost use Rattle.elab_connections.specs.WidePorts.{is_wide};

use crate::paths::Paths;
use elab_items::{drives_of, hierarchical};
use elab_parts::{Drive, DrivenBits, Part, ValueIn};
use expr_sizes::{Writer, read_expr, target_width_in};
use instance_checks::Child;
use std::alloc::Global;
use std::rc::Rc;
use v_copy::copy_text;
use v_names::{Scope, place_of_expr};
use v_tree::{Expr, Target};
use vf_base::{MAX_BITS, NoMemory, Place, Seq, Text};

/// The width of a port that is no wider than a vector may be.
fn sizing_width(width: u64) -> u8
    ensures { width ≤ most_bits → result ≡ width }
{
    width.min(u64::from(MAX_BITS)) as u8
}

/// All bits of a vector.
fn whole_bits(width: u8) -> DrivenBits
    ensures { places_of result ≡ whole_places width }
{
    DrivenBits {
        outside_below: 0,
        low: 0,
        width: u64::from(width),
        outside_above: 0,
    }
}

/// The drive of a whole port.
fn whole_drive(
    alloc: Global,
    path: &Text,
    port: &Text,
    width: u8,
    place: Place,
) -> Result<Seq<Drive>, NoMemory>
    ensures { IfOk result (λ drives. drives_of drives ≡ record { signal = path.now ++ port.now; places = whole_places width; place = source_place place } ∷ []) }
{
    let signal = hierarchical(alloc, path, port.as_bytes())?;
    let bits = whole_bits(width);
    let mut drives = Vec::new(alloc);
    drives.push(Drive {
        signal,
        bits,
        place,
    })?;
    Ok(Seq::from_vec(drives))
}

/// An expression of a scope in a context of a width.
fn value_in(
    alloc: Global,
    path: &Rc<Text>,
    scope: &Scope<'_>,
    expr: &Expr,
    width: u8,
) -> Result<ValueIn, NoMemory>
    ensures { IfOk result (λ value. value_of value ≡ record { path = path.now.value; value = tree_in width (reading_of scope.now (expression_of expr.now)) }) }
{
    let read = read_expr(alloc, expr, scope)?;
    let value = read.tree_in(width);
    let path = path.clone()?;
    Ok(ValueIn { path, value })
}

/// An input that is no wider than a vector may be is assigned its actual, sized for the port.
pub fn input_part<'u>(
    alloc: Global,
    child: Child<'_, '_>,
    paths: &Paths,
    port: &Text,
    expr: &Expr,
) -> Result<Part<'u>, NoMemory>
    ensures { IfOk result (λ part. (c : plain.Child) → IsChild c child.entry → is_wide c (Some port.now) ≡ false → (p : plain.Paths) → ArePaths p paths.now →
        part_of part ≡ input_part c p port.now (expression_of expr.now)) }
{
    let width = sizing_width(child.port_width(port));
    let value = value_in(alloc, &paths.outer, child.outer, expr, width)?;
    let drives = whole_drive(alloc, &paths.inner, port, width, place_of_expr(expr))?;
    Ok(Part::Assign { drives, value })
}

/// A name alone, at a place.
fn name_alone(alloc: Global, place: Place, name: &Text) -> Result<Expr, NoMemory>
    ensures { IfOk result (λ expr. expression_of expr ≡ Selected (source_place place) name.now NoIndex) }
{
    let name = copy_text(alloc, name)?;
    Ok(Expr::Name { place, name })
}

/// The actual of an output is assigned the port; its selects take runs of bits.
pub fn output_part<'u>(
    alloc: Global,
    child: Child<'_, '_>,
    paths: &Paths,
    port: &Text,
    expr: &Expr,
    target: &Target,
) -> Result<Part<'u>, NoMemory>
    ensures { IfOk result (λ part. (c : plain.Child) → IsChild c child.entry → TargetTakesRuns c.outer_scope (views.target_of target.now) → (p : plain.Paths) → ArePaths p paths.now →
        part_of part ≡ output_part c p port.now (expression_of expr.now) (views.target_of target.now)) }
{
    let alone = name_alone(alloc, place_of_expr(expr), port)?;
    let width = target_width_in(alloc, Writer::Node, target, child.outer)?;
    let value = value_in(alloc, &paths.inner, child.inner, &alone, width)?;
    let drives = drives_of(alloc, &paths.outer, child.outer, target)?;
    Ok(Part::Assign { drives, value })
}
