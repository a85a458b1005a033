// The exported calls of a session: it is started, lines are added to it, and the last one is withdrawn. Each call answers one
// number.
ghost use Rattle.c_session.specs.Calls.{StartReturns, AddReturns, WithdrawReturns};

use lines::Line;

// Starts a session of n variables in a lent state.
#[unsafe(no_mangle)]
pub extern "C" fn utvpi_session_start(n: u64, state: &mut [i64]) -> i64
    ensures { StartReturns n state.old result state.new }
{
    c_session::utvpi_session_start(n, state)
}

// Are there whole numbers that meet every line so far and this one? The lent buffers take what shows it.
#[unsafe(no_mangle)]
pub extern "C" fn utvpi_session_add(
    state: &mut [i64],
    line: Line,
    model: &mut [i32],
    bounds: &mut [i64],
    groups: &mut [u32],
    refutation: &mut [u32],
    identifiers: &mut [u32],
    work: &mut [i64],
) -> i64
    ensures { AddReturns state.old line result
        (record { model = model.old; bounds = bounds.old; groups = groups.old; refutation = refutation.old; identifiers = identifiers.old; work = work.old })
        state.new
        (record { model = model.new; bounds = bounds.new; groups = groups.new; refutation = refutation.new; identifiers = identifiers.new; work = work.new }) }
{
    c_session::utvpi_session_add(
        state,
        line,
        model,
        bounds,
        groups,
        refutation,
        identifiers,
        work,
    )
}

// Withdraws the last line.
#[unsafe(no_mangle)]
pub extern "C" fn utvpi_session_withdraw(state: &mut [i64]) -> i64
    ensures { WithdrawReturns state.old result state.new }
{
    c_session::utvpi_session_withdraw(state)
}
