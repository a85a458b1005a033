// The answer to a list whose last line a session learns: from what is known where the list has a solution, else by deciding.

#![tactic(auto)]

ghost use Rattle.std.specs.Prelude.{◌≡◌};
ghost use Rattle.session_state.specs.State.{table_in, known_in, with_known};
ghost use Rattle.session_learn.specs.Learnt.{learns};
ghost use Rattle.session_known.specs.Known.{known_after};
ghost use Rattle.session_answer.specs.Answers.{LearnInReady, YesReady, YesWritten, AnswerReady, Answers};

use decide::{Answer, decide};
use decide_buffers::{clear, work_room};
use lines::Refusal;
use session_known::{give_known, learn_known};
use session_state::{FRONT_ROOM, session_room};

// Line k learnt in a state.
fn learn_in(list: &[i32], k: usize, state: &mut [i64], n: usize) -> bool
    requires { LearnInReady n list.now k state.old }
    ensures { (result ≡ learns n list.now k (table_in n state.old)) × (state.new ≡ with_known n state.old (known_after n list.now k (known_in n state.old))) }
{
    let end = session_room(n);
    learn_known(list, k, &mut state[FRONT_ROOM..end], n)
}

// The outputs from what a state knows, and zeros in the work area.
fn write_yes(
    state: &[i64],
    n: usize,
    model: &mut [i32],
    bounds: &mut [i64],
    groups: &mut [u32],
    work: &mut [i64],
)
    requires { YesReady n state.now model.old bounds.old groups.old work.old }
    ensures { YesWritten n state.now model.old bounds.old groups.old work.old model.new bounds.new groups.new work.new }
{
    let end = session_room(n);
    give_known(&state[FRONT_ROOM..end], n, model, bounds, groups);
    clear(work, work_room(n));
}

// Whether the list has a solution, its last line learnt: yes, and the outputs; or what deciding answers.
pub fn answer_learnt(
    list: &[i32],
    k: usize,
    state: &mut [i64],
    n: usize,
    model: &mut [i32],
    bounds: &mut [i64],
    groups: &mut [u32],
    refutation: &mut [u32],
    identifiers: &mut [u32],
    work: &mut [i64],
) -> Result<Answer, Refusal>
    requires { AnswerReady n list.now k state.old
        (record { model = model.old; bounds = bounds.old; groups = groups.old; refutation = refutation.old; identifiers = identifiers.old; work = work.old }) }
    ensures { Answers n list.now k state.old result
        (record { model = model.old; bounds = bounds.old; groups = groups.old; refutation = refutation.old; identifiers = identifiers.old; work = work.old })
        state.new
        (record { model = model.new; bounds = bounds.new; groups = groups.new; refutation = refutation.new; identifiers = identifiers.new; work = work.new }) }
{
    if learn_in(list, k, state, n) {
        write_yes(state, n, model, bounds, groups, work);
        return Ok(Answer::Yes);
    }
    decide(
        n,
        list,
        model,
        bounds,
        groups,
        refutation,
        identifiers,
        work,
    )
}
