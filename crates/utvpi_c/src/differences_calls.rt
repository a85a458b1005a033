// The exported function that decides a list of differences, with lent buffers. It answers one number, by the code of the
// function that decides any list.
ghost use Rattle.c_differences.specs.Calls.{DifferencesReturn};

// Are there whole numbers that meet every line of this list of differences of n variables? The lent buffers take what
// shows it.
#[unsafe(no_mangle)]
pub extern "C" fn utvpi_decide_differences(
    n: u64,
    list: &[i32],
    model: &mut [i32],
    bounds: &mut [i64],
    groups: &mut [u32],
    refutation: &mut [u32],
    identifiers: &mut [u32],
    work: &mut [i64],
) -> i64
    ensures { DifferencesReturn n list.now result
        (record { model = model.old; bounds = bounds.old; groups = groups.old; refutation = refutation.old; identifiers = identifiers.old; work = work.old })
        (record { model = model.new; bounds = bounds.new; groups = groups.new; refutation = refutation.new; identifiers = identifiers.new; work = work.new }) }
{
    c_differences::utvpi_decide_differences(
        n,
        list,
        model,
        bounds,
        groups,
        refutation,
        identifiers,
        work,
    )
}
