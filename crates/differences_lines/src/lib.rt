// Differences among the lines of a list: a line with one coefficient 1 and one -1 is one step over the variables
// themselves. The first line that is none, and what is refused of such a list and its lent buffers.

#![tactic(auto)]

ghost use Rattle.std.specs.Prelude.{◌≡◌, ◌<◌, nat_abs};
ghost use Rattle.lines.specs.Limits.{max_variables};
ghost use Rattle.lines.specs.Line.{line_at, line_count};
ghost use Rattle.lines.specs.Valid.{VariableOk};
ghost use Rattle.theory_differences.specs.Plain.{one_each_lem, is_difference_lem, plain_step_lem};
ghost use Rattle.theory_differences.specs.Numbers.{plain_number_lem};
ghost use Rattle.differences_lines.specs.Others.{first_other_lem};
ghost use Rattle.differences_lines.specs.PlainList.{PlainAt};
ghost use Rattle.differences_lines.specs.Refused.{differences_validity_lem};

use decide_buffers::{Lengths, differences_work_room, rooms_validity};
use lines::limits::LINE_SIZE;
use lines::{Refusal, line_at, list_validity};
use steps::Step;

// Whether one of two coefficients is 1 and the other -1.
fn one_each(a: i32, b: i32) -> bool
    ensures { result ≡ one_each_lem a b }
{
    if a == 1 {
        return b == -1;
    }
    if a == -1 {
        return b == 1;
    }
    false
}

// Whether line number k is a difference.
fn is_difference(list: &[i32], k: usize) -> bool
    requires { k < line_count list.now }
    ensures { result ≡ is_difference_lem (line_at list.now k) }
{
    let line = line_at(list, k);
    one_each(line.a, line.b)
}

// The number of the first line that is no difference, or the number of lines.
#[tactic(auto, using(integers::proofs::Searching::searching), unfolding(crate::specs::Others::first_other_lem))]
fn first_other(list: &[i32]) -> usize
    ensures { result ≡ first_other_lem list.now }
{
    let count = list.len() / LINE_SIZE;
    for k in 0..count {
        if !is_difference(list, k) {
            return k;
        }
    }
    count
}

// The step from x to y of weight d.
fn step_between(x: i32, y: i32, d: i32) -> Step
    requires { VariableOk max_variables x × VariableOk max_variables y }
    ensures { result ≡ record { from = nat_abs x; to = nat_abs y; weight = d } }
{
    Step {
        from: x as usize,
        to: y as usize,
        weight: d as i64,
    }
}

// The step of line number k over the variables: x - y <= d leads from x to y, and -x + y <= d from y to x.
#[tactic(auto, unfolding(theory_differences::specs::Plain::plain_step_lem))]
pub fn plain_step(list: &[i32], k: usize) -> Step
    requires { PlainAt list.now k }
    ensures { result ≡ plain_step_lem (line_at list.now k) }
{
    let line = line_at(list, k);
    if line.a == 1 {
        return step_between(line.x, line.y, line.d);
    }
    step_between(line.y, line.x, line.d)
}

// The number in the list of that step between plus points: the line's side 0 where x has the coefficient 1, else side 1.
#[tactic(auto, unfolding(theory_differences::specs::Plain::plain_side))]
pub fn plain_number(list: &[i32], k: usize) -> usize
    requires { PlainAt list.now k }
    ensures { result ≡ plain_number_lem list.now k }
{
    let line = line_at(list, k);
    if line.a == 1 {
        return 2 * k;
    }
    2 * k + 1
}

// The first refusal that applies: the list's, 60, 7 and 8.
pub fn differences_validity(n: usize, list: &[i32], lengths: Lengths) -> Result<(), Refusal>
    ensures { result ≡ differences_validity_lem n list.now lengths }
{
    list_validity(n, list)?;
    let other = first_other(list);
    if other < list.len() / LINE_SIZE {
        return Err(Refusal::NotDifference(other));
    }
    rooms_validity(n, lengths, differences_work_room(n))
}
