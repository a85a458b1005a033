// A refutation that arrives in pieces: begin, take the numbers as they come, and ask for the answer at the end. What is
// kept between two numbers is the checker's own state, ten numbers; the refutation itself is never kept.

#![tactic(auto)]

ghost use Rattle.std.specs.Prelude.{◌≡◌, ◌&&◌, ◌*◌, ◌≤◌};
ghost use Rattle.integers.specs.Integer.{is_within_lem};
ghost use Rattle.lines.specs.Limits.{max_refutation};
ghost use Rattle.check_refutation.specs.Progress.{start};
ghost use Rattle.check_pieces.specs.Taken.{valid_weight, is_small_lem, names_valid_lem, take_on_lem, end_answer};

use check_answers::CheckAnswer;
use check_refutation::Progress;
use integers::between;
use lines::limits::{LINE_SIZE, MAX_CONSTANT, MAX_REFUTATION, MAX_VARIABLES};
use lines::{Refusal, line_at, line_validity, list_validity};

// The weight of a valid line's step lies within plus and minus this.
const VALID_WEIGHT: usize = 2 * MAX_CONSTANT as usize;
// The numbers of a refutation are below this.
const NUMBERS: usize = u32::MAX as usize + 1;

// Whether a sum is one that so many steps can have.
fn is_sum(count: usize, sum: i64) -> bool
    requires { count ≤ max_refutation }
    ensures { result ≡ is_within_lem (count * valid_weight) sum }
{
    let most = (count * VALID_WEIGHT) as i64;
    between(-most, most, sum)
}

// Whether the sums kept are ones that the steps read can have.
fn sums_small(kept: Progress) -> bool
    requires { kept.read ≤ max_refutation }
    ensures { result ≡ (is_within_lem (kept.read * valid_weight) kept.first && is_within_lem (kept.read * valid_weight) kept.second) }
{
    is_sum(kept.read, kept.first) && is_sum(kept.read, kept.second)
}

// Whether the numbers kept are as small as the steps read can make them.
#[tactic(auto, unfolding(crate::specs::Taken::is_small_lem))]
fn is_small(kept: Progress) -> bool
    ensures { result ≡ is_small_lem kept }
{
    kept.read <= MAX_REFUTATION
        && sums_small(kept)
        && kept.p < NUMBERS
        && kept.q < NUMBERS
        && kept.wrong <= kept.read
}

// Whether the line that a number names, where there is one, keeps the line rules.
#[tactic(auto, unfolding(crate::specs::Taken::names_valid_lem))]
fn names_valid(list: &[i32], number: usize) -> bool
    ensures { result ≡ names_valid_lem list.now number }
{
    list.len() / LINE_SIZE <= number / 2
        || line_validity(MAX_VARIABLES, 0, line_at(list, number / 2)).is_ok()
}

// Nothing was read.
pub fn begin() -> Progress
    ensures { result ≡ start }
{
    Progress::new()
}

// One number more. It is lent the list and that number alone.
#[tactic(auto, unfolding(crate::specs::Taken::take_on_lem))]
pub fn take_on(kept: Progress, list: &[i32], number: u32) -> Progress
    ensures { result ≡ take_on_lem list.now kept number }
{
    if MAX_REFUTATION <= kept.read {
        return Progress {
            read: MAX_REFUTATION + 1,
            ..kept
        };
    }
    if is_small(kept) && names_valid(list, number as usize) {
        kept.take(list, number)
    } else {
        kept.only_if(false)
    }
}

// The answer on all numbers that were taken: the list's refusals, then 11, then whether they refute the list.
#[tactic(auto, unfolding(crate::specs::Taken::end_answer))]
pub fn end(kept: Progress, n: usize, list: &[i32]) -> Result<CheckAnswer, Refusal>
    ensures { result ≡ end_answer n list.now kept }
{
    list_validity(n, list)?;
    if MAX_REFUTATION < kept.read {
        return Err(Refusal::LongRefutation);
    }
    if !is_small(kept) {
        return Ok(CheckAnswer::No(0));
    }
    Ok(kept.judge())
}
