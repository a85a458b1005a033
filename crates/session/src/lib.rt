// A session that takes lines one at a time: it is started, lines are added to it, and the last one is withdrawn. A lent state
// holds it between the calls. Each call reads the state as any numbers.

#![tactic(auto)]

ghost use Rattle.std.specs.Prelude.{◌≡◌, true, ◌<◌, ◌≤◌, length, Ok};
ghost use Rattle.lines.specs.Limits.{max_variables};
ghost use Rattle.session_state.specs.State.{session_room_lem, count_in, is_state_lem};
ghost use Rattle.session_promise.specs.Promise.{start_state, withdraw_state, Starts, Adds, Withdraws};

use decide::Answer;
use lines::limits::MAX_VARIABLES;
use lines::{Line, Refusal};
use session_add::add_to;
use session_remake::{put_known, remake_known};
use session_state::{STATE_PLACE, begin_state, is_state, pop_line, read_head, session_room};

// Writes the state of n variables and no lines.
fn write_start(n: usize, state: &mut [i64])
    requires { (n ≤ max_variables) × (session_room_lem n ≤ length state.old) }
    ensures { state.new ≡ start_state n state.old (Ok tt) }
{
    begin_state(state, n);
    let none = [0i32; 0];
    put_known(&none, n, state);
}

// Starts a session of n variables.
pub fn start(n: usize, state: &mut [i64]) -> Result<(), Refusal>
    ensures { Starts n state.old result state.new }
{
    if MAX_VARIABLES < n {
        return Err(Refusal::TooManyVariables);
    }
    if state.len() < session_room(n) {
        return Err(Refusal::ShortOutput(STATE_PLACE));
    }
    write_start(n, state);
    Ok(())
}

// Adds a line, and decides all lines so far.
pub fn add(
    state: &mut [i64],
    line: Line,
    model: &mut [i32],
    bounds: &mut [i64],
    groups: &mut [u32],
    refutation: &mut [u32],
    identifiers: &mut [u32],
    work: &mut [i64],
) -> Result<Answer, Refusal>
    ensures { Adds state.old line result
        (record { model = model.old; bounds = bounds.old; groups = groups.old; refutation = refutation.old; identifiers = identifiers.old; work = work.old })
        state.new
        (record { model = model.new; bounds = bounds.new; groups = groups.new; refutation = refutation.new; identifiers = identifiers.new; work = work.new }) }
{
    if !is_state(state) {
        return Err(Refusal::ShortOutput(STATE_PLACE));
    }
    let head = read_head(state);
    if head.refused {
        return Err(Refusal::AfterNo);
    }
    add_to(
        state,
        line,
        model,
        bounds,
        groups,
        refutation,
        identifiers,
        work,
    )
}

// Takes the last line away. After a no what is known is known of the lines before it; else it is made anew.
fn take_last(state: &mut [i64])
    requires { (is_state_lem state.old ≡ true) × (0 < count_in state.old) }
    ensures { state.new ≡ withdraw_state state.old (Ok tt) }
{
    let head = read_head(state);
    if head.refused {
        pop_line(state);
        return;
    }
    remake_known(state);
    pop_line(state);
}

// Withdraws the last line.
pub fn withdraw(state: &mut [i64]) -> Result<(), Refusal>
    ensures { Withdraws state.old result state.new }
{
    if !is_state(state) {
        return Err(Refusal::ShortOutput(STATE_PLACE));
    }
    let head = read_head(state);
    if head.count == 0 {
        return Err(Refusal::NoLines);
    }
    take_last(state);
    Ok(())
}
