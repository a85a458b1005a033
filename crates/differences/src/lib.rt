// Deciding a list of differences, lines with one coefficient 1 and one -1. There is one point for each variable, so that the
// table of distances, and with it the work area, is small.

#![tactic(auto)]

ghost use Rattle.differences.specs.Answered.{AnswerReady, Answered};
ghost use Rattle.differences.specs.Decided.{DifferencesDecided};

use decide::Answer;
use decide_buffers::{Lengths, clear, differences_work_room};
use decide_identifiers::write_identifiers;
use differences_lines::differences_validity;
use differences_search::refuted_differences;
use differences_table::write_plain_table;
use differences_yes::write_plain_answers;
use lines::Refusal;

// Whether the list is refuted. If it is, the refutation is written; else the model, the bounds and the groups are.
fn refuted_or_answered(
    list: &[i32],
    n: usize,
    model: &mut [i32],
    bounds: &mut [i64],
    groups: &mut [u32],
    refutation: &mut [u32],
    work: &mut [i64],
) -> bool
    requires { AnswerReady n list.now model.old bounds.old groups.old refutation.old work.old }
    ensures { Answered n list.now model.old bounds.old groups.old refutation.old work.old
        model.new bounds.new groups.new refutation.new work.new result }
{
    if refuted_differences(list, n, refutation, work) {
        return true;
    }
    write_plain_table(list, n, work);
    write_plain_answers(&work[..n * n], n, model, bounds, groups);
    false
}

// Decides a list of differences for n variables.
pub fn decide_differences(
    n: usize,
    list: &[i32],
    model: &mut [i32],
    bounds: &mut [i64],
    groups: &mut [u32],
    refutation: &mut [u32],
    identifiers: &mut [u32],
    work: &mut [i64],
) -> Result<Answer, Refusal>
    ensures { DifferencesDecided n list.now result
        (record { model = model.old; bounds = bounds.old; groups = groups.old; refutation = refutation.old; identifiers = identifiers.old; work = work.old })
        (record { model = model.new; bounds = bounds.new; groups = groups.new; refutation = refutation.new; identifiers = identifiers.new; work = work.new }) }
{
    differences_validity(
        n,
        list,
        Lengths {
            model: model.len(),
            bounds: bounds.len(),
            groups: groups.len(),
            refutation: refutation.len(),
            identifiers: identifiers.len(),
            work: work.len(),
        },
    )?;
    let room = differences_work_room(n);
    if refuted_or_answered(list, n, model, bounds, groups, refutation, work) {
        write_identifiers(list, refutation, identifiers);
        clear(work, room);
        return Ok(Answer::No);
    }
    clear(work, room);
    Ok(Answer::Yes)
}
