// The exported question of what two variables of a list imply about each other, with a lent work area.

#![tactic(auto)]

ghost use Rattle.std.specs.Prelude.{◌≡◌};
ghost use Rattle.implied_pair.specs.Places.{Below};
ghost use Rattle.c_codes.specs.Codes.{refusal_unit};
ghost use Rattle.c_implied.specs.Calls.{without_pair_lem, pair_code_lem, returns, pair_returned};

use c_codes::{NO_SOLUTION, refusal_code};
use implied_pair::{Pair, implied_pair};
use lines::Refusal;

// What C gets: the result, and behind it x + y and x - y, then -x + y and -x - y; four zeros where no pair is implied.
#[repr(C)]
#[derive(Clone, Copy)]
pub struct CPair {
    pub result: i64,
    pub plus: [i64; 2],
    pub minus: [i64; 2],
}

// A result with four zeros.
fn without_pair(code: i64) -> CPair
    ensures { result ≡ without_pair_lem code }
{
    let plus = [0; 2];
    let minus = [0; 2];
    CPair {
        result: code,
        plus,
        minus,
    }
}

// What an answer is returned as.
pub fn pair_code(answer: Result<Option<Pair>, Refusal>) -> CPair
    requires { Below refusal_unit answer }
    ensures { result ≡ pair_code_lem answer }
{
    match answer {
        Ok(Some(pair)) => {
            let plus = pair.plus;
            let minus = pair.minus;
            CPair {
                result: 0,
                plus,
                minus,
            }
        }
        Ok(None) => without_pair(NO_SOLUTION),
        Err(r) => without_pair(refusal_code(r)),
    }
}

// The greatest values, over all whole numbers that meet every line of this list of n variables, of the sums and
// differences of the variables x and y.
pub fn utvpi_implied_pair(n: u64, list: &[i32], x: u64, y: u64, work: &mut [i64]) -> CPair
    ensures { returns result work.new ≡ pair_returned n list.now x y work.old }
{
    pair_code(implied_pair(n as usize, list, x as usize, y as usize, work))
}
