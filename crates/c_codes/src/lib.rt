// What the exported functions share: the numbers that a refusal and an answer of a check are returned as, and a list out of
// bytes, four little-endian ones to a number.

#![tactic(auto)]

ghost use Rattle.std.specs.Prelude.{◌≡◌, ◌*◌, ◌<◌, ◌≤◌, length};
ghost use Rattle.lines.specs.Limits.{line_size, max_lines};
ghost use Rattle.lines.specs.Refusal.{place_of};
ghost use Rattle.check_answers.specs.Answer.{Below};
ghost use Rattle.c_codes.specs.Codes.{refusal_unit, refusal_code_lem};
ghost use Rattle.c_codes.specs.CheckCode.{check_code_lem};
ghost use Rattle.c_codes.specs.ListBytes.{Decoded};

use check_answers::CheckAnswer;
use lines::limits::{LINE_SIZE, MAX_LINES, MAX_VARIABLES};
use lines::{Refusal, list_validity, number_and_place};
use little_endian::decode_i32;

// The answer no is this and, of a model, the number of the line that fails, of a refutation the place where it breaks.
pub const NO: usize = 1_000_000;
// Returned where a question is asked of a list that has no solution.
pub const NO_SOLUTION: i64 = 2_000_000;
// A refusal's number counts this much, and then its place.
const REFUSAL_UNIT: usize = 100_000;
// The bytes of a number of a list or a refutation, and of a line.
pub const NUMBER_BYTES: usize = 4;

pub const LINE_BYTES: usize = NUMBER_BYTES * LINE_SIZE;
// The numbers of the longest list.
pub const MOST_NUMBERS: usize = LINE_SIZE * MAX_LINES;

// The number that a refusal is returned as.
#[tactic(auto, using(lines::specs::Numbers::number_small), unfolding(crate::specs::Codes::refusal_code_lem))]
pub fn refusal_code(r: Refusal) -> i64
    requires { place_of r < refusal_unit }
    ensures { result ≡ refusal_code_lem r }
{
    let s = number_and_place(r);
    let code = s.number * REFUSAL_UNIT + s.place;
    -(code as i64)
}

// The number that an answer of a check is returned as.
pub fn check_code(a: Result<CheckAnswer, Refusal>) -> i64
    requires { Below refusal_unit a }
    ensures { result ≡ check_code_lem a }
{
    match a {
        Ok(CheckAnswer::Yes) => 0,
        Ok(CheckAnswer::No(k)) => (NO + k) as i64,
        Err(r) => refusal_code(r),
    }
}

// The refusals of a list in bytes. Where none applies, its numbers are written.
#[tactic(auto, using(crate::specs::ListBytes::too_many_lines, crate::specs::ListBytes::bytes_as_numbers), unfolding(crate::specs::ListBytes::bytes_validity))]
pub fn decode_list(n: usize, list: &[u8], numbers: &mut [i32]) -> Result<(), Refusal>
    requires { line_size * max_lines ≤ length numbers.old }
    ensures { Decoded n list.now numbers.new result }
{
    if MAX_VARIABLES < n {
        return Err(Refusal::TooManyVariables);
    }
    if list.len() % LINE_BYTES != 0 {
        return Err(Refusal::BrokenLength);
    }
    if MAX_LINES < list.len() / LINE_BYTES {
        return Err(Refusal::TooManyLines);
    }
    decode_i32(list, numbers);
    list_validity(n, &numbers[..list.len() / NUMBER_BYTES])
}
