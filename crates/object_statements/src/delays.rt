// Delays, in units of time.

ghost use Rattle.std.specs.Prelude.{◌≡◌, IfOk, option_map};
ghost use Rattle.v_tree.specs.Views.{expression_of, expression_in};
ghost use Rattle.v_names.specs.Readings.{number_or};
ghost use Rattle.v_names.specs.SizeViews.{signed_value};
ghost use Rattle.v_elab.specs.Statements.{Meaning as PlainMeaning, unsigned_number, delay_number, delay_or_zero};
ghost use Rattle.object_statements.specs.Meanings.{IsMeaning};
ghost use Rattle.object_statements.specs.Texts.{HasMeaning};
ghost use Rattle.v_design.specs.Sized.{IsDelay, IsDelayIf};

use crate::meaning::Meaning;
use std::alloc::Global;
use v_names::{Constant, constant_of};
use v_tree::Expr;
use vf_base::NoMemory;

/// The number of a constant read as unsigned, 0 where it has none.
fn unsigned_or_zero(constant: Option<Constant>) -> u128
    ensures { result ≡ number_or 0 (unsigned_number (option_map signed_value constant)) }
{
    match constant {
        None => 0,
        Some(constant) => match constant.value.as_number() {
            None => 0,
            Some(number) => number,
        },
    }
}

/// A delay of 32 bits, 0 where it has no number.
pub fn delay_over(alloc: Global, meaning: Meaning<'_, '_>, delay: &Expr) -> Result<u32, NoMemory>
    requires { HasMeaning meaning (λ (m : PlainMeaning). IsDelay (delay_number m (expression_of delay.now))) }
    ensures { IfOk result (λ units. (plain : PlainMeaning) → IsMeaning plain meaning.entry → units ≡ delay_number plain (expression_of delay.now)) }
{
    let constant = constant_of(alloc, delay, meaning.scope, 0)?;
    let units = unsigned_or_zero(constant) as u32;
    Ok(units)
}

/// A delay that may be there.
pub fn delay_if(
    alloc: Global,
    meaning: Meaning<'_, '_>,
    delay: &Option<Expr>,
) -> Result<Option<u32>, NoMemory>
    requires { HasMeaning meaning (λ (m : PlainMeaning). IsDelayIf (option_map (delay_number m) (expression_in delay.now))) }
    ensures { IfOk result (λ units. (plain : PlainMeaning) → IsMeaning plain meaning.entry → units ≡ option_map (delay_number plain) (expression_in delay.now)) }
{
    match delay {
        None => Ok(None),
        Some(delay) => {
            let units = delay_over(alloc, meaning, delay)?;
            Ok(Some(units))
        }
    }
}

/// A delay, 0 where there is none.
pub fn delay_or_zero(
    alloc: Global,
    meaning: Meaning<'_, '_>,
    delay: &Option<Expr>,
) -> Result<u32, NoMemory>
    requires { HasMeaning meaning (λ (m : PlainMeaning). IsDelay (delay_or_zero m (expression_in delay.now))) }
    ensures { IfOk result (λ units. (plain : PlainMeaning) → IsMeaning plain meaning.entry → units ≡ delay_or_zero plain (expression_in delay.now)) }
{
    match delay {
        None => Ok(0),
        Some(delay) => {
            let units = delay_over(alloc, meaning, delay)?;
            Ok(units)
        }
    }
}
