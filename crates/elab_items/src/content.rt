// First contents of what an instance declares.

ghost use Rattle.std.specs.Prelude.{◌≡◌, IfOk};
ghost use Rattle.four_value.specs.Values.{IsWidth};
ghost use Rattle.v_elab.specs.Walk.{first_content_of, content_of};
ghost use Rattle.module_scope.specs.Declarations.{first_seen, declared_seen};

use four_value::Vec4;
use module_scope::Declared;
use std::alloc::Global;
use v_names::{Scope, constant_of};
use v_tree::Expr;
use vf_base::NoMemory;

/// The expression of the first content of what is declared, if it has one.
pub fn first_content_of<'m>(declared: Declared<'m>) -> Option<&'m Expr>
    ensures { first_seen result ≡ first_content_of (declared_seen declared.entry) }
{
    match declared {
        Declared::Port { first, .. } => first,
        Declared::Reg { first, .. } => first,
        _ => None,
    }
}

/// The first content of a variable of a width, if it has one that is a constant.
pub fn content_of(
    alloc: Global,
    scope: &Scope<'_>,
    width: u8,
    first: Option<&Expr>,
) -> Result<Option<Vec4>, NoMemory>
    requires { IsWidth width }
    ensures { IfOk result (λ content. content ≡ content_of scope.now width (first_seen first.entry)) }
{
    let Some(first) = first else {
        return Ok(None);
    };
    match constant_of(alloc, first, scope, width)? {
        None => Ok(None),
        Some(constant) => Ok(Some(constant.value.resize_by_sign(constant.signed, width))),
    }
}
