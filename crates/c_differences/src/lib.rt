// The exported function that decides a list of differences, with lent buffers. It answers one number, by the code of the
// function that decides any list.

#![tactic(auto)]

ghost use Rattle.c_differences.specs.Calls.{DifferencesReturn};

use c_deciding::decide_code;
use differences::decide_differences;

// Are there whole numbers that meet every line of this list of differences of n variables? The lent buffers take what
// shows it.
#[tactic(auto, using(crate::specs::Laws::plain_below))]
pub fn utvpi_decide_differences(
    n: u64,
    list: &[i32],
    model: &mut [i32],
    bounds: &mut [i64],
    groups: &mut [u32],
    refutation: &mut [u32],
    identifiers: &mut [u32],
    work: &mut [i64],
) -> i64
    ensures { DifferencesReturn n list.now result
        (record { model = model.old; bounds = bounds.old; groups = groups.old; refutation = refutation.old; identifiers = identifiers.old; work = work.old })
        (record { model = model.new; bounds = bounds.new; groups = groups.new; refutation = refutation.new; identifiers = identifiers.new; work = work.new }) }
{
    decide_code(decide_differences(
        n as usize,
        list,
        model,
        bounds,
        groups,
        refutation,
        identifiers,
        work,
    ))
}
