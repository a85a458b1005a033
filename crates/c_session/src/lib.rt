// The exported calls of a session: it is started, lines are added to it, and the last one is withdrawn. Each call answers one
// number.

#![tactic(auto)]

ghost use Rattle.std.specs.Prelude.{◌≡◌};
ghost use Rattle.lines.specs.Places.{Placed};
ghost use Rattle.c_codes.specs.Codes.{refusal_unit};
ghost use Rattle.c_session.specs.Calls.{done_code_lem, StartReturns, AddReturns, WithdrawReturns};

use c_codes::refusal_code;
use c_deciding::decide_code;
use lines::{Line, Refusal};
use session::{add, start, withdraw};

// The number that a start or a withdrawal is returned as.
fn done_code(v: Result<(), Refusal>) -> i64
    requires { Placed refusal_unit v }
    ensures { result ≡ done_code_lem v }
{
    match v {
        Ok(()) => 0,
        Err(r) => refusal_code(r),
    }
}

// Starts a session of n variables in a lent state.
pub fn utvpi_session_start(n: u64, state: &mut [i64]) -> i64
    ensures { StartReturns n state.old result state.new }
{
    done_code(start(n as usize, state))
}

// Are there whole numbers that meet every line so far and this one? The lent buffers take what shows it.
pub fn utvpi_session_add(
    state: &mut [i64],
    line: Line,
    model: &mut [i32],
    bounds: &mut [i64],
    groups: &mut [u32],
    refutation: &mut [u32],
    identifiers: &mut [u32],
    work: &mut [i64],
) -> i64
    ensures { AddReturns state.old line result
        (record { model = model.old; bounds = bounds.old; groups = groups.old; refutation = refutation.old; identifiers = identifiers.old; work = work.old })
        state.new
        (record { model = model.new; bounds = bounds.new; groups = groups.new; refutation = refutation.new; identifiers = identifiers.new; work = work.new }) }
{
    decide_code(add(
        state,
        line,
        model,
        bounds,
        groups,
        refutation,
        identifiers,
        work,
    ))
}

// Withdraws the last line.
pub fn utvpi_session_withdraw(state: &mut [i64]) -> i64
    ensures { WithdrawReturns state.old result state.new }
{
    done_code(withdraw(state))
}
