// The model check: whether proposed values solve a list, or the first line that they fail.

#![tactic(auto)]

ghost use Rattle.std.specs.Prelude.{◌≡◌, nat_abs, ◌*ℤ◌, length};
ghost use Rattle.lines.specs.Line.{lines_of, left_side_lem, meets, assignment_of};
ghost use Rattle.lines.specs.Valid.{LineWorks, LinesOk};
ghost use Rattle.check_model.specs.Model.{values_validity_lem, model_validity_lem, first_failing_lem, model_answer};
ghost use Rattle.check_model.specs.Laws.{ValuesOk, TermOk};

use check_answers::CheckAnswer;
use integers::between;
use lines::limits::{LINE_SIZE, MAX_VALUE};
use lines::{Line, Refusal, line_at, list_validity};

// A coefficient times its variable's value. With coefficient 0 no value is read: there may be none.
fn term(coefficient: i32, variable: i32, model: &[i64]) -> i64
    requires { TermOk (length model.now) coefficient variable × ValuesOk model.now }
    ensures { result ≡ coefficient *ℤ assignment_of model.now (nat_abs variable) }
{
    if coefficient == 0 {
        return 0;
    }
    let at = variable as usize;
    let value = model[at];
    if coefficient < 0 { -value } else { value }
}

// a·x + b·y.
fn left_side(line: Line, model: &[i64]) -> i64
    requires { LineWorks (length model.now) line × ValuesOk model.now }
    ensures { result ≡ left_side_lem (assignment_of model.now) line }
{
    term(line.a, line.x, model) + term(line.b, line.y, model)
}

// Whether the values meet a line.
pub fn is_met(line: Line, model: &[i64]) -> bool
    requires { LineWorks (length model.now) line × ValuesOk model.now }
    ensures { result ≡ meets (assignment_of model.now) line }
{
    left_side(line, model) <= i64::from(line.d)
}

// Yes, or no with the first line that the values fail, in list order.
fn first_failing(list: &[i32], model: &[i64]) -> CheckAnswer
    requires { LinesOk (length model.now) list.now × ValuesOk model.now }
    ensures { result ≡ first_failing_lem (assignment_of model.now) 0 (lines_of list.now) }
{
    let count = list.len() / LINE_SIZE;
    let mut k = 0;
    // The loop yields the number by `break`: the form that was asked for (docs/DECISIONS.md, "Forms").
    let failing = loop {
        if k >= count {
            break count;
        }
        if !is_met(line_at(list, k), model) {
            break k;
        }
        k += 1;
    };
    if failing < count {
        CheckAnswer::No(failing)
    } else {
        CheckAnswer::Yes
    }
}

// Refusal 10: the lowest index of a value outside its limit.
fn values_validity(model: &[i64]) -> Result<(), Refusal>
    ensures { result ≡ values_validity_lem 0 model.now }
{
    for i in 0..model.len() {
        if !between(-MAX_VALUE, MAX_VALUE, model[i]) {
            return Err(Refusal::BadValue(i));
        }
    }
    Ok(())
}

// The first refusal that applies: the list's, 9 and 10.
#[tactic(auto, unfolding(crate::specs::Model::model_validity_lem))]
fn model_validity(n: usize, list: &[i32], model: &[i64]) -> Result<(), Refusal>
    ensures { result ≡ model_validity_lem n list.now model.now }
{
    list_validity(n, list)?;
    if model.len() != n {
        return Err(Refusal::WrongModelLength);
    }
    values_validity(model)
}

// Whether the values of a model solve a list for n variables.
#[tactic(auto, using(crate::specs::Laws::valid_model), unfolding(crate::specs::Model::model_answer))]
pub fn check_model(n: usize, list: &[i32], model: &[i64]) -> Result<CheckAnswer, Refusal>
    ensures { result ≡ model_answer n list.now model.now }
{
    model_validity(n, list, model)?;
    Ok(first_failing(list, model))
}
