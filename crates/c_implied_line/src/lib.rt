// The exported question whether every solution of a list meets a line, with lent buffers. It answers one number.

#![tactic(auto)]

ghost use Rattle.std.specs.Prelude.{◌≡◌};
ghost use Rattle.implied_line.specs.Places.{Below};
ghost use Rattle.c_codes.specs.Codes.{refusal_unit};
ghost use Rattle.c_implied_line.specs.Calls.{line_code_lem, LineReturns};

use c_codes::{NO, NO_SOLUTION, refusal_code};
use implied_line::{LineAnswer, implied_line};
use lines::{Line, Refusal};

// The number that an answer on a line is returned as.
pub fn line_code(a: Result<LineAnswer, Refusal>) -> i64
    requires { Below refusal_unit a }
    ensures { result ≡ line_code_lem a }
{
    match a {
        Ok(LineAnswer::Implied) => 0,
        Ok(LineAnswer::NotImplied) => NO as i64,
        Ok(LineAnswer::Unsolvable) => NO_SOLUTION,
        Err(r) => refusal_code(r),
    }
}

// Does this line hold of all whole numbers that meet every line of this list of n variables? If not, the model takes
// numbers that meet the list and not the line.
pub fn utvpi_implied_line(
    n: u64,
    list: &[i32],
    line: Line,
    model: &mut [i32],
    work: &mut [i64],
) -> i64
    ensures { LineReturns n list.now line result
        (record { model = model.old; work = work.old })
        (record { model = model.new; work = work.new }) }
{
    line_code(implied_line(n as usize, list, line, model, work))
}
