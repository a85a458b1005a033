// The line question: whether every solution of a list meets a line. If not, the model of the list with the opposite line
// behind it breaks the line.

#![tactic(auto)]

ghost use Rattle.std.specs.Prelude.{◌≡◌, length};
ghost use Rattle.decide_buffers.specs.Room.{model_lengths};
ghost use Rattle.implied_line.specs.Answer.{question_validity_lem, AnswersLine};
ghost use Rattle.implied_line.specs.Judged.{LineAsked, LineJudged};

use decide::{refuted, refuted_or_modelled};
use decide_buffers::{Lengths, MOST_REFUTATION, clear, model_validity, work_room};
use lines::limits::LINE_SIZE;
use lines::{Line, Refusal, line_validity, list_validity};
use longer_list::{MOST_NUMBERS, copy_with_line};
use opposite_line::opposite_line;

// The list implies the line, it does not, or it has no solution.
#[derive(Clone, Copy)]
pub enum LineAnswer {
    Implied,
    NotImplied,
    Unsolvable,
}

// The first refusal that applies: the list's, the line's as if it stood behind the list, then 7 and 8. The buffers are
// given by their lengths.
#[tactic(auto, using(lines::specs::Valid::valid_list), unfolding(crate::specs::Answer::question_validity_lem))]
fn question_validity(
    n: usize,
    list: &[i32],
    line: Line,
    model: usize,
    work: usize,
) -> Result<(), Refusal>
    ensures { result ≡ question_validity_lem n list.now line (model_lengths model work) }
{
    list_validity(n, list)?;
    line_validity(n, list.len() / LINE_SIZE, line)?;
    model_validity(n, Lengths::of_model(model, work))
}

// The answer by two searches: of the list, and of the list with the opposite line behind it. The second one, where it
// finds no refutation, writes the model.
fn judged_line(
    n: usize,
    list: &[i32],
    line: Line,
    model: &mut [i32],
    work: &mut [i64],
) -> LineAnswer
    requires { LineAsked n list.now line model.old work.old }
    ensures { LineJudged n list.now line model.old work.old result model.new work.new }
{
    let mut refutation = [0; MOST_REFUTATION];
    if refuted(list, n, &mut refutation, work) {
        return LineAnswer::Unsolvable;
    }
    let mut longer = [0i32; MOST_NUMBERS];
    copy_with_line(list, opposite_line(line), &mut longer);
    let end = list.len() + LINE_SIZE;
    if refuted_or_modelled(&longer[..end], n, model, &mut refutation, work) {
        return LineAnswer::Implied;
    }
    LineAnswer::NotImplied
}

// Does every solution of this list of n variables meet the line? Only where one does not is the model written.
pub fn implied_line(
    n: usize,
    list: &[i32],
    line: Line,
    model: &mut [i32],
    work: &mut [i64],
) -> Result<LineAnswer, Refusal>
    ensures { AnswersLine n list.now line result
        (record { model = model.old; work = work.old })
        (record { model = model.new; work = work.new }) }
{
    question_validity(n, list, line, model.len(), work.len())?;
    let answer = judged_line(n, list, line, model, work);
    clear(work, work_room(n));
    Ok(answer)
}
