// The steps of a list's lines, by the specification's table, and the step with a given number.

#![tactic(auto)]

ghost use Rattle.std.specs.Prelude.{◌≡◌, ◌<◌, pos, nat_abs, ◌*ℤ◌};
ghost use Rattle.integers.specs.Integer.{Within};
ghost use Rattle.lines.specs.Limits.{max_variables, work_constant};
ghost use Rattle.lines.specs.Valid.{VariableOk, LineWorks};
ghost use Rattle.steps.specs.Point.{point, opposite};
ghost use Rattle.steps.specs.Table.{digit};
ghost use Rattle.steps.specs.Sides.{side_at, no_step_lem, lone_side_lem};
ghost use Rattle.steps.specs.Step.{variable_at, end_point_lem, step_of, step_numbered_lem, NamedOk};

use lines::limits::LINE_SIZE;
use lines::{Line, line_at};

// A step goes from a point to a point: it says that the value of `from` less that of `to` is at most the weight.
#[derive(Clone, Copy)]
pub struct Step {
    pub from: usize,
    pub to: usize,
    pub weight: i64,
}

// A side's three entries of the specification's table: start, end and weight factor. An end is a place of the line and a
// sign: 0 is x+, 1 is x-, 2 is y+, 3 is y-. A factor of 0 says that there is no step.
#[derive(Clone, Copy)]
pub struct Side {
    pub start: usize,
    pub end: usize,
    pub factor: usize,
}

// The entries where there is no step.
fn no_step() -> Side
    ensures { result ≡ no_step_lem }
{
    Side {
        start: 0,
        end: 0,
        factor: 0,
    }
}

// The entries for a coefficient that stands alone, with its digit, start and end: it has one step, and 0 has none.
fn lone_side(digit: usize, side: usize, start: usize, end: usize) -> Side
    ensures { result ≡ lone_side_lem digit side start end }
{
    if digit == 1 {
        return no_step();
    }
    if side == 1 {
        return no_step();
    }
    Side {
        start,
        end,
        factor: 2,
    }
}

// The entries for the coefficients with the digits p and q, of x and of y. The table is computed, since the compiler would
// lay out a constant one anew wherever it is read. The lines of a valid list take seven of the nine pairs, since a lone
// coefficient stands first; the table has all nine, as the field has them.
fn side_of(p: usize, q: usize, side: usize) -> Side
    requires { (p < 3) × (q < 3) × (side < 2) }
    ensures { result ≡ side_at p q side }
{
    let from_x = 1 - p / 2;
    let to_x = p / 2;
    let from_y = 3 - q / 2;
    let to_y = 2 + q / 2;
    if p == 1 {
        return lone_side(q, side, from_y, to_y);
    }
    if q == 1 {
        return lone_side(p, side, from_x, to_x);
    }
    if side == 0 {
        return Side {
            start: from_x,
            end: to_y,
            factor: 1,
        };
    }
    Side {
        start: from_y,
        end: to_x,
        factor: 1,
    }
}

// A coefficient's row or column in the table.
fn digit_of(a: i32) -> usize
    ensures { (result ≡ digit a) × (result < 3) }
{
    if a < 0 {
        return 0;
    }
    if a == 0 { 1 } else { 2 }
}

// A variable's point with a sign.
fn point_of(variable: i32, sign: usize) -> usize
    requires { VariableOk max_variables variable × (sign < 2) }
    ensures { result ≡ point (nat_abs variable) sign }
{
    2 * variable as usize + sign
}

// The point of the variable at an end's place, with the end's sign.
fn end_point(line: Line, end: usize) -> usize
    requires { VariableOk max_variables (variable_at line end) }
    ensures { result ≡ end_point_lem line end }
{
    if end < 2 {
        return point_of(line.x, end % 2);
    }
    point_of(line.y, end % 2)
}

// d times a factor of 1 or 2.
fn weight_of(factor: usize, d: i32) -> i64
    requires { (factor ≡ 0 → ⊥) × (factor < 3) × Within work_constant d }
    ensures { result ≡ pos factor *ℤ d }
{
    let w = d as i64;
    if factor == 1 { w } else { w + w }
}

// The line's step of a side.
fn line_step(line: Line, side: usize) -> Option<Step>
    requires { LineWorks max_variables line × (side < 2) }
    ensures { result ≡ step_of line side }
{
    let entries = side_of(digit_of(line.a), digit_of(line.b), side);
    let factor = entries.factor;
    if factor == 0 {
        return None;
    }
    let from = end_point(line, entries.start);
    let to = end_point(line, entries.end);
    let weight = weight_of(factor, line.d);
    Some(Step { from, to, weight })
}

// The step with a number: twice the line's number plus the side.
pub fn step_numbered(list: &[i32], number: usize) -> Option<Step>
    requires { NamedOk max_variables list.now number }
    ensures { result ≡ step_numbered_lem list.now number }
{
    if number / 2 < list.len() / LINE_SIZE {
        line_step(line_at(list, number / 2), number % 2)
    } else {
        None
    }
}

// A variable's other point.
pub fn opposite_of(p: usize) -> usize
    ensures { result ≡ opposite p }
{
    if p % 2 == 0 { p + 1 } else { p - 1 }
}
