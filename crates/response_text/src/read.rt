// The whole response.

ghost use Rattle.std.specs.Prelude.{◌≡◌, ◌≤◌, ◌++◌, ◌∷◌, [], Ok, IfOk, OnOk, IfErr, length};
ghost use Rattle.v_design.specs.PlainDesigns.{plan_of};
ghost use Rattle.kept_samples.specs.Kept.{samples_kept};
ghost use Rattle.dict_laws.specs.Responses.{IsResponse};
ghost use Rattle.text_lines.specs.Plain.{plain_texts};
ghost use Rattle.response_text.specs.Reading.{most_bytes, samples_on};
ghost use Rattle.response_text.specs.Spelled.{Spells, Refuses, FaultOf};

use crate::fault::ResponseFault;
use crate::limits::MAX_RESPONSE_BYTES;
use crate::sample::sample_on;
use kept_samples::Sample;
use std::alloc::Global;
use text_lines::lines;
use v_design::Plan;
use vf_base::NoMemory;

/// Adds a sample.
fn push_sample(samples: &mut Vec<Sample>, sample: Sample) -> Result<(), NoMemory>
    ensures { OnOk result (samples.new.items ≡ samples.old.items ++ sample ∷ []) }
{
    samples.push(sample)?;
    Ok(())
}

/// The samples that the lines spell, one for each strobe, or the first line at fault: one that isn't its strobe's, or the first without the other.
fn read_lines(
    alloc: Global,
    width: usize,
    strobes: &[u64],
    lines: &[&[u8]],
) -> Result<Vec<Sample>, ResponseFault>
    requires { length lines.now ≤ most_bytes }
    ensures samples { IfOk result (λ samples. samples_on width 1 strobes.now (plain_texts lines.now) ≡ Ok (samples_kept samples.items)) }
    ensures fault { IfErr result (FaultOf (samples_on width 1 strobes.now (plain_texts lines.now))) }
{
    let count = lines.len().min(strobes.len());
    let mut head = String::new(alloc);
    let mut samples = Vec::new(alloc);
    'lines: for place in 0..count {
        let Some(sample) = sample_on(alloc, &mut head, strobes[place], width, lines[place])? else {
            return Err(ResponseFault::BadLine(place as u32 + 1));
        };
        push_sample(&mut samples, sample)?;
    }
    if lines.len() != strobes.len() {
        return Err(ResponseFault::BadLine(count as u32 + 1));
    }
    Ok(samples)
}

/// The samples that a response's text spells: one for each strobe of the plan, in order, with its time and a bit for each watched bit. A bit that wasn't observed is x.
///
/// # Errors
///
/// A text of more than 1,048,576 bytes is `TooLong`, before anything else. Else `BadLine` has the number, from 1, of the first line that isn't the next strobe's, or of
/// the line after the last where strobes are missing. Want of memory can come anywhere.
pub fn read_response(alloc: Global, text: &[u8], plan: &Plan) -> Result<Vec<Sample>, ResponseFault>
    ensures samples { IfOk result (λ samples. Spells (plan_of plan.now) text.now (samples_kept samples.items)) }
    ensures fits { IfOk result (λ samples. IsResponse (plan_of plan.now) (samples_kept samples.items)) }
    ensures fault { IfErr result (Refuses (plan_of plan.now) text.now) }
{
    if text.len() as u64 > MAX_RESPONSE_BYTES {
        return Err(ResponseFault::TooLong);
    }
    let lines = lines(alloc, text)?;
    read_lines(
        alloc,
        plan.watched.as_slice().len(),
        plan.strobes.as_slice(),
        lines.as_slice(),
    )
}
