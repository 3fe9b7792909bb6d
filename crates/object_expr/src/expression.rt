// Sized expressions over objects.

ghost use Rattle.std.specs.Prelude.{◌≡◌, IfOk};
ghost use Rattle.v_design.specs.Plain.{expression_of, expressions_of};
ghost use Rattle.v_names.specs.SizedTrees.{Holders, over_objects, all_over_objects};
ghost use Rattle.v_width.specs.SizedViews.{sized_of, all_sized_of};
ghost use Rattle.object_names.specs.Instances.{HoldNames};
ghost use Rattle.object_expr.specs.Narrow.{IsNarrowTree, AreNarrowTrees};

use object_names::InstanceNames;
use std::alloc::Global;
use v_design::FlatExpr;
use v_width::SizedExpr;
use vf_base::NoMemory;

/// A sized expression with the objects of its names; its bounds and counts have 32 bits.
#[cycle(over_objects)]
pub fn over_objects(
    alloc: Global,
    names: InstanceNames<'_>,
    expr: &SizedExpr,
) -> Result<FlatExpr, NoMemory>
    requires { IsNarrowTree (sized_of expr.now) }
    ensures { IfOk result (λ flat. (holders : Holders) → HoldNames holders names.entry → expression_of flat ≡ over_objects holders (sized_of expr.now)) }
{
    match expr {
        SizedExpr::Constant { size, value } => Ok(FlatExpr::Constant {
            width: size.width,
            signed: size.signed,
            value: *value,
        }),
        SizedExpr::Name { size, name } => {
            let vector = names.vector(alloc, name)?;
            Ok(FlatExpr::Name {
                width: size.width,
                signed: size.signed,
                vector,
            })
        }
        SizedExpr::BitSelect { size, name, index } => {
            let vector = names.vector(alloc, name)?;
            let index = boxed(alloc, names, index)?;
            Ok(FlatExpr::BitSelect {
                width: size.width,
                signed: size.signed,
                vector,
                index,
            })
        }
        SizedExpr::PartSelect {
            size,
            name,
            from,
            to,
        } => {
            let vector = names.vector(alloc, name)?;
            let from = *from as u32;
            let to = *to as u32;
            Ok(FlatExpr::PartSelect {
                width: size.width,
                signed: size.signed,
                vector,
                from,
                to,
            })
        }
        SizedExpr::WordSelect { size, name, index } => {
            let memory = names.memory(alloc, name)?;
            let index = boxed(alloc, names, index)?;
            Ok(FlatExpr::WordSelect {
                width: size.width,
                signed: size.signed,
                memory,
                index,
            })
        }
        SizedExpr::Unary {
            size,
            operator,
            operand,
        } => {
            let operand = boxed(alloc, names, operand)?;
            Ok(FlatExpr::Unary {
                width: size.width,
                signed: size.signed,
                operator: *operator,
                operand,
            })
        }
        SizedExpr::Binary {
            size,
            operator,
            left,
            right,
        } => {
            let left = boxed(alloc, names, left)?;
            let right = boxed(alloc, names, right)?;
            Ok(FlatExpr::Binary {
                width: size.width,
                signed: size.signed,
                operator: *operator,
                left,
                right,
            })
        }
        SizedExpr::Conditional {
            size,
            condition,
            first,
            second,
        } => {
            let condition = boxed(alloc, names, condition)?;
            let first = boxed(alloc, names, first)?;
            let second = boxed(alloc, names, second)?;
            Ok(FlatExpr::Conditional {
                width: size.width,
                signed: size.signed,
                condition,
                first,
                second,
            })
        }
        SizedExpr::Concatenation { size, parts } => {
            let parts = all_over_objects(alloc, names, parts)?;
            Ok(FlatExpr::Concatenation {
                width: size.width,
                signed: size.signed,
                parts,
            })
        }
        SizedExpr::Replication { size, count, parts } => {
            let count = *count as u32;
            let parts = all_over_objects(alloc, names, parts)?;
            Ok(FlatExpr::Replication {
                width: size.width,
                signed: size.signed,
                count,
                parts,
            })
        }
    }
}

/// A sized expression with the objects of its names, in a box.
#[cycle(over_objects)]
fn boxed(
    alloc: Global,
    names: InstanceNames<'_>,
    expr: &SizedExpr,
) -> Result<Box<FlatExpr>, NoMemory>
    requires { IsNarrowTree (sized_of expr.now) }
    ensures { IfOk result (λ flat. (holders : Holders) → HoldNames holders names.entry → expression_of flat.value ≡ over_objects holders (sized_of expr.now)) }
{
    let flat = over_objects(alloc, names, expr)?;
    Ok(Box::new(alloc, flat)?)
}

/// Sized expressions with the objects of their names.
#[cycle(over_objects)]
pub fn all_over_objects(
    alloc: Global,
    names: InstanceNames<'_>,
    exprs: &[SizedExpr],
) -> Result<Vec<FlatExpr>, NoMemory>
    requires { AreNarrowTrees (all_sized_of exprs.now) }
    ensures { IfOk result (λ flats. (holders : Holders) → HoldNames holders names.entry → expressions_of flats.items ≡ all_over_objects holders (all_sized_of exprs.now)) }
{
    let mut flats = Vec::new(alloc);
    'exprs: for expr in exprs {
        let flat = over_objects(alloc, names, expr)?;
        flats.push(flat)?;
    }
    Ok(flats)
}
