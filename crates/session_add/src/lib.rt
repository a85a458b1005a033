// A line is added to the state of a session: it is learnt, and all lines so far are answered.

#![tactic(auto)]

ghost use Rattle.std.specs.Prelude.{◌≡◌, true, false, ◌<◌};
ghost use Rattle.lines.specs.Limits.{max_lines};
ghost use Rattle.session_state.specs.State.{count_in, refused_in, head_ok_lem, is_state_lem};
ghost use Rattle.session_promise.specs.Promise.{Adds};
ghost use Rattle.session_add.specs.Added.{TakenIn};

use decide::Answer;
use decide_buffers::{Lengths, decide_validity};
use lines::limits::LINE_SIZE;
use lines::{Line, Refusal};
use longer_list::MOST_NUMBERS;
use session_answer::answer_learnt;
use session_state::{copy_with, push_line, read_head};

// The line is part of the state, after a no too.
fn take_in(
    state: &mut [i64],
    line: Line,
    answer: Result<Answer, Refusal>,
) -> Result<Answer, Refusal>
    requires { (head_ok_lem state.old ≡ true) × (count_in state.old < max_lines) }
    ensures { TakenIn state.old line answer result state.new }
{
    match answer {
        Ok(Answer::Yes) => {
            push_line(state, line, false);
            Ok(Answer::Yes)
        }
        Ok(Answer::No) => {
            push_line(state, line, true);
            Ok(Answer::No)
        }
        Err(r) => Err(r),
    }
}

// Adds a line to a state whose last answer was no no.
pub fn add_to(
    state: &mut [i64],
    line: Line,
    model: &mut [i32],
    bounds: &mut [i64],
    groups: &mut [u32],
    refutation: &mut [u32],
    identifiers: &mut [u32],
    work: &mut [i64],
) -> Result<Answer, Refusal>
    requires { (is_state_lem state.old ≡ true) × (refused_in state.old ≡ false) }
    ensures { Adds state.old line result
        (record { model = model.old; bounds = bounds.old; groups = groups.old; refutation = refutation.old; identifiers = identifiers.old; work = work.old })
        state.new
        (record { model = model.new; bounds = bounds.new; groups = groups.new; refutation = refutation.new; identifiers = identifiers.new; work = work.new }) }
{
    let mut list = [0i32; MOST_NUMBERS];
    copy_with(state, line, &mut list);
    let head = read_head(state);
    let n = head.n;
    let count = head.count;
    let end = LINE_SIZE * count + LINE_SIZE;
    decide_validity(
        n,
        &list[..end],
        Lengths {
            model: model.len(),
            bounds: bounds.len(),
            groups: groups.len(),
            refutation: refutation.len(),
            identifiers: identifiers.len(),
            work: work.len(),
        },
    )?;
    let answer = answer_learnt(
        &list[..end],
        count,
        state,
        n,
        model,
        bounds,
        groups,
        refutation,
        identifiers,
        work,
    );
    take_in(state, line, answer)
}
