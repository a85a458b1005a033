// The exported questions to a session, without adding: whether the lines so far imply a line, and what they imply of two
// variables.

#![tactic(auto)]

ghost use Rattle.std.specs.Prelude.{◌≡◌};
ghost use Rattle.c_session_asked.specs.Calls.{line_returned, pair_returned};

use c_implied::{CPair, pair_code};
use c_implied_line::line_code;
use lines::Line;
use session_asked::{session_implied, session_pair};

// Does this line hold of all whole numbers that meet every line so far?
pub fn utvpi_session_implied(state: &[i64], line: Line) -> i64
    ensures { result ≡ line_returned state.now line }
{
    line_code(session_implied(state, line))
}

// The greatest values, over all whole numbers that meet every line so far, of the sums and differences of the variables x
// and y.
pub fn utvpi_session_pair(state: &[i64], x: u64, y: u64) -> CPair
    ensures { result ≡ pair_returned state.now x y }
{
    pair_code(session_pair(state, x as usize, y as usize))
}
