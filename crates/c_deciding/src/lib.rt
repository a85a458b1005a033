// The exported function that decides a list of numbers, with lent buffers. It answers one number.

#![tactic(auto)]

ghost use Rattle.std.specs.Prelude.{◌≡◌};
ghost use Rattle.decide.specs.Places as deciding;
ghost use Rattle.c_codes.specs.Codes.{refusal_unit};
ghost use Rattle.c_deciding.specs.Calls.{decide_code_lem, DecideReturns};

use c_codes::{NO, refusal_code};
use decide::{Answer, decide};
use lines::Refusal;

// The number that an answer on a list is returned as.
pub fn decide_code(a: Result<Answer, Refusal>) -> i64
    requires { deciding.Below refusal_unit a }
    ensures { result ≡ decide_code_lem a }
{
    match a {
        Ok(Answer::Yes) => 0,
        Ok(Answer::No) => NO as i64,
        Err(r) => refusal_code(r),
    }
}

// Are there whole numbers that meet every line of this list of n variables? The lent buffers take what shows it.
#[tactic(auto, using(crate::specs::Laws::decided_below))]
pub fn utvpi_decide(
    n: u64,
    list: &[i32],
    model: &mut [i32],
    bounds: &mut [i64],
    groups: &mut [u32],
    refutation: &mut [u32],
    identifiers: &mut [u32],
    work: &mut [i64],
) -> i64
    ensures { DecideReturns n list.now result
        (record { model = model.old; bounds = bounds.old; groups = groups.old; refutation = refutation.old; identifiers = identifiers.old; work = work.old })
        (record { model = model.new; bounds = bounds.new; groups = groups.new; refutation = refutation.new; identifiers = identifiers.new; work = work.new }) }
{
    decide_code(decide(
        n as usize,
        list,
        model,
        bounds,
        groups,
        refutation,
        identifiers,
        work,
    ))
}
