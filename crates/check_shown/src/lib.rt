// The checker of showings: a showing of a line is a refutation of the list against the line, and the refutation checker's
// pass judges it.

#![tactic(auto)]

ghost use Rattle.std.specs.Prelude.{◌≡◌};
ghost use Rattle.check_shown.specs.Answer.{showing_validity_lem, shown_answer};

use check_answers::CheckAnswer;
use check_refutation::read_all;
use lines::limits::{LINE_SIZE, MAX_REFUTATION};
use lines::{Line, Refusal, list_validity, shown_validity};
use longer_list::MOST_NUMBERS;
use shown_list::write_against;

// The first refusal that applies: the list's, the line's as if it stood behind the list, then 11. The showing is given by
// its length.
#[tactic(auto, unfolding(crate::specs::Answer::showing_validity_lem))]
pub fn showing_validity(n: usize, list: &[i32], line: Line, numbers: usize) -> Result<(), Refusal>
    ensures { result ≡ showing_validity_lem n list.now line numbers }
{
    list_validity(n, list)?;
    shown_validity(n, list.len() / LINE_SIZE, line)?;
    if MAX_REFUTATION < numbers {
        return Err(Refusal::LongRefutation);
    }
    Ok(())
}

// The refusals, then yes, or no with the place where the showing breaks.
#[tactic(auto, unfolding(crate::specs::Answer::shown_answer))]
pub fn check_shown(
    n: usize,
    list: &[i32],
    line: Line,
    showing: &[u32],
) -> Result<CheckAnswer, Refusal>
    ensures { result ≡ shown_answer n list.now line showing.now }
{
    showing_validity(n, list, line, showing.len())?;
    let mut against = [0i32; MOST_NUMBERS];
    write_against(list, line, &mut against);
    Ok(read_all(&against, showing).judge())
}
