// Two values that there may have been no memory for.

ghost use Rattle.std.specs.Prelude.{◌≡◌, IfOk, Ok};

use vf_base::NoMemory;

/// Both of two values, if there was memory for both.
///
/// One `?` behind two calls: what drops the one where the other is wanting stands here and nowhere else.
pub fn both<A, B>(one: Result<A, NoMemory>, other: Result<B, NoMemory>) -> Result<(A, B), NoMemory>
where
    A: Drop,
    B: Drop,
    ensures one { IfOk result (λ both. one ≡ Ok both.0) }
    ensures other { IfOk result (λ both. other ≡ Ok both.1) }
{
    match one {
        Ok(one) => match other {
            Ok(other) => Ok((one, other)),
            Err(fault) => Err(fault),
        },
        Err(fault) => Err(fault),
    }
}
