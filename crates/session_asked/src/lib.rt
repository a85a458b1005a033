// Questions to a session, without adding: the pair of two variables and whether a line is implied by the lines so far, from
// the table of its state. The state is read as any numbers, and only its head and its table are looked at: so each takes
// constant time.

#![tactic(auto)]

ghost use Rattle.std.specs.Prelude.{◌≡◌, true, ◌<◌};
ghost use Rattle.lines.specs.Valid.{LineWorks};
ghost use Rattle.session_state.specs.State.{variables_in, head_ok_lem};
ghost use Rattle.session_asked.specs.Asked.{line_validity_in, line_by, pair_validity_in, pair_by, line_from_table_lem, pair_from_table_lem};

use implied_line::LineAnswer;
use implied_pair::Pair;
use lines::{Line, Refusal, line_validity};
use session_questions::{line_asked, pair_asked};
use session_state::{FRONT_ROOM, STATE_PLACE, head_ok, read_head, table_end};

// The first refusal that applies to the question of a line: 7, then the line's rules.
fn question_validity(state: &[i64], line: Line) -> Result<(), Refusal>
    ensures { result ≡ line_validity_in state.now line }
{
    if !head_ok(state) {
        return Err(Refusal::ShortOutput(STATE_PLACE));
    }
    let head = read_head(state);
    line_validity(head.n, head.count, line)
}

// The answer off the table, or that the lines have no solution.
fn line_from_table(state: &[i64], line: Line) -> LineAnswer
    requires { (head_ok_lem state.now ≡ true) × LineWorks (variables_in state.now) line }
    ensures { result ≡ line_from_table_lem state.now line }
{
    let head = read_head(state);
    if head.refused {
        return LineAnswer::Unsolvable;
    }
    let end = table_end(head.n);
    if line_asked(&state[FRONT_ROOM..end], head.n, line) {
        return LineAnswer::Implied;
    }
    LineAnswer::NotImplied
}

// Whether every solution of the lines so far meets a line.
pub fn session_implied(state: &[i64], line: Line) -> Result<LineAnswer, Refusal>
    ensures { result ≡ line_by state.now line }
{
    question_validity(state, line)?;
    Ok(line_from_table(state, line))
}

// The first refusal that applies to the question of two variables: 7, then 5 for x and for y.
fn two_validity(state: &[i64], x: usize, y: usize) -> Result<(), Refusal>
    ensures { result ≡ pair_validity_in state.now x y }
{
    if !head_ok(state) {
        return Err(Refusal::ShortOutput(STATE_PLACE));
    }
    let head = read_head(state);
    if head.n <= x {
        return Err(Refusal::BadVariable(0));
    }
    if head.n <= y {
        return Err(Refusal::BadVariable(1));
    }
    Ok(())
}

// The pair off the table, or that the lines have no solution.
fn pair_from_table(state: &[i64], x: usize, y: usize) -> Option<Pair>
    requires { (head_ok_lem state.now ≡ true) × (x < variables_in state.now) × (y < variables_in state.now) }
    ensures { result ≡ pair_from_table_lem state.now x y }
{
    let head = read_head(state);
    if head.refused {
        return None;
    }
    let end = table_end(head.n);
    Some(pair_asked(&state[FRONT_ROOM..end], head.n, x, y))
}

// The greatest values of the sums and differences of two variables over all solutions of the lines so far.
pub fn session_pair(state: &[i64], x: usize, y: usize) -> Result<Option<Pair>, Refusal>
    ensures { result ≡ pair_by state.now x y }
{
    two_validity(state, x, y)?;
    Ok(pair_from_table(state, x, y))
}
