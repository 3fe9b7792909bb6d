// Whether two values that were read are equal.

ghost use Rattle.std.specs.Prelude.{◌≡◌, ◌↔◌, IsTrue};

use four_value::Vec4;

/// Whether two values are equal.
fn same_value(one: Vec4, other: Vec4) -> bool
    ensures { IsTrue result ↔ (one ≡ other) }
{
    one.width() == other.width() && one.same(other)
}

/// Whether two values are equal, or neither is there.
pub(crate) fn same_read(one: Option<Vec4>, other: Option<Vec4>) -> bool
    ensures { IsTrue result ↔ (one ≡ other) }
{
    match (one, other) {
        (None, None) => true,
        (Some(one), Some(other)) => same_value(one, other),
        _ => false,
    }
}
