// The two steps of a line, by their numbers: whether they close a walk of negative sum, both tested before either is put
// into the table of distances; and the table with both.

#![tactic(auto)]

ghost use Rattle.std.specs.Prelude.{◌≡◌, ◌*◌, ◌<◌};
ghost use Rattle.lines.specs.Line.{line_count};
ghost use Rattle.lines.specs.Valid.{LinesOk};
ghost use Rattle.steps.specs.Step.{step_numbered_lem};
ghost use Rattle.theory_walks.specs.Negative.{not_below0};
ghost use Rattle.theory_inserting.specs.Insert.{closing, inserted};
ghost use Rattle.decide_rows.specs.Numbers.{StepOk};
ghost use Rattle.session_step.specs.Read.{small_table, SizedTable};
ghost use Rattle.session_line.specs.Numbered.{named_after, line_after};
ghost use Rattle.session_line.specs.Both.{line_stays_in};

use decide_stored_table::{smaller, sum};
use session_step::{put_step, read_at, stays, sum_along};
use steps::{Step, step_numbered};

// Whether no closed walk through the second step has a negative sum, once the first is put in.
fn stays_after(table: &[i64], n: usize, first: Step, second: Step) -> bool
    requires { SizedTable n table.now × StepOk n first × StepOk n second }
    ensures { result ≡ not_below0 (closing (inserted (small_table (2 * n) table.now) first) second) }
{
    let direct = read_at(table, n, second.to, second.from);
    let before = sum_along(table, n, second.to, first);
    let through = sum(before, read_at(table, n, first.to, second.from));
    -second.weight <= smaller(direct, through)
}

// Whether neither step of line k closes a walk of negative sum, the second with the first put in.
pub fn both_stay(list: &[i32], k: usize, table: &[i64], n: usize) -> bool
    requires { SizedTable n table.now × LinesOk n list.now × (k < line_count list.now) }
    ensures { result ≡ line_stays_in (2 * n) list.now k table.now }
{
    let first = step_numbered(list, 2 * k);
    let second = step_numbered(list, 2 * k + 1);
    if let Some(a) = first {
        if !stays(table, n, a) {
            return false;
        }
        if let Some(b) = second {
            return stays_after(table, n, a, b);
        }
        return true;
    }
    if let Some(b) = second {
        return stays(table, n, b);
    }
    true
}

// The step with a number put in, where it names one.
fn put_numbered(list: &[i32], number: usize, table: &mut [i64], n: usize)
    requires { SizedTable n table.old × LinesOk n list.now }
    ensures { table.new ≡ named_after (2 * n) (step_numbered_lem list.now number) table.old }
{
    let named = step_numbered(list, number);
    if let Some(step) = named {
        put_step(table, n, step);
    }
}

// The two steps of line k put in, one after the other.
pub fn put_line(list: &[i32], k: usize, table: &mut [i64], n: usize)
    requires { SizedTable n table.old × LinesOk n list.now × (k < line_count list.now) }
    ensures { table.new ≡ line_after (2 * n) list.now k table.old }
{
    put_numbered(list, 2 * k, table, n);
    put_numbered(list, 2 * k + 1, table, n);
}
