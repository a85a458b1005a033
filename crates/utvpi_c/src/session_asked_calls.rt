// The exported questions to a session, without adding: whether the lines so far imply a line, and what they imply of two
// variables.
ghost use Rattle.std.specs.Prelude.{◌≡◌};
ghost use Rattle.c_session_asked.specs.Calls.{line_returned, pair_returned};

use c_implied::CPair;
use lines::Line;

// Does this line hold of all whole numbers that meet every line so far?
#[unsafe(no_mangle)]
pub extern "C" fn utvpi_session_implied(state: &[i64], line: Line) -> i64
    ensures { result ≡ line_returned state.now line }
{
    c_session_asked::utvpi_session_implied(state, line)
}

// The greatest values, over all whole numbers that meet every line so far, of the sums and differences of the variables x
// and y.
#[unsafe(no_mangle)]
pub extern "C" fn utvpi_session_pair(state: &[i64], x: u64, y: u64) -> CPair
    ensures { result ≡ pair_returned state.now x y }
{
    c_session_asked::utvpi_session_pair(state, x, y)
}
