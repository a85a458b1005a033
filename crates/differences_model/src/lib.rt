// The model of a list of differences, off the table of the distances between its variables: in number order, each the
// possible value nearest zero, given those before.

#![tactic(auto)]

ghost use Rattle.std.specs.Prelude.{◌≡◌, ◌++◌, ◌<◌, length, drop};
ghost use Rattle.integers.specs.Integer.{Within};
ghost use Rattle.integers.specs.Sequence.{tabulate};
ghost use Rattle.lines.specs.Line.{assignment_of};
ghost use Rattle.theory_walks.specs.Distance.{some, ◌⊞◌};
ghost use Rattle.theory_bounds.specs.Table.{table_model};
ghost use Rattle.theory_differences.specs.Distances.{doubled};
ghost use Rattle.theory_differences.specs.Doubled.{limit_row, turned, limit_by_lem};
ghost use Rattle.decide_rows.specs.Stored.{stored};
ghost use Rattle.decide_stored_table.specs.Table.{table_of};
ghost use Rattle.decide_model.specs.Limit.{max_model};
ghost use Rattle.decide_model.specs.Written.{next_of};
ghost use Rattle.differences_model.specs.Limit.{PlainTable, NextReady, PlainModelReady};

use decide_model::nearest_value;
use decide_rows::NO_WALK;
use decide_stored_table::{smaller, sum};

// The distance from u to v: row v has the distances to v.
pub fn distance_at(table: &[i64], n: usize, u: usize, v: usize) -> i64
    requires { PlainTable n table.now × (u < n) × (v < n) }
    ensures { result ≡ stored (table_of n table.now u v) }
{
    let at = v * n + u;
    table[at]
}

// The greatest value of k, given that of x; or the least one, negated.
fn limit_by(table: &[i64], n: usize, upper: bool, k: usize, x: usize, value: i64) -> i64
    requires { PlainTable n table.now × (k < n) × (x < n) × Within max_model value }
    ensures { result ≡ stored (limit_row upper (table_of n table.now) k x ⊞ some (turned upper value)) }
{
    if upper {
        return sum(distance_at(table, n, k, x), value);
    }
    sum(distance_at(table, n, x, k), -value)
}

// The greatest value of the next variable, given those of the first ones; or the least one, negated.
fn limit_at(table: &[i64], n: usize, upper: bool, values: &[i32]) -> i64
    requires { NextReady n table.now values.now }
    ensures { result ≡ stored (limit_by_lem upper (table_of n table.now) (assignment_of values.now) (length values.now)) }
{
    let k = values.len();
    let mut limit = NO_WALK;
    for x in 0..k {
        let other = limit_by(table, n, upper, k, x, values[x] as i64);
        limit = smaller(limit, other);
    }
    limit
}

// The value of the next variable, given those of the first ones.
fn next_value(table: &[i64], n: usize, values: &[i32]) -> i64
    requires { NextReady n table.now values.now }
    ensures { result ≡ next_of (doubled (table_of n table.now)) values.now }
{
    let up = limit_at(table, n, true, values);
    let low = limit_at(table, n, false, values);
    nearest_value(up, low)
}

// The values of the n variables at the front of `model`: each is small enough for 32 bits.
pub fn write_plain_model(table: &[i64], n: usize, model: &mut [i32])
    requires { PlainModelReady n table.now model.old }
    ensures { model.new ≡ tabulate n (table_model n (doubled (table_of n table.now))) ++ drop n model.old }
{
    for k in 0..n {
        let value = next_value(table, n, &model[..k]) as i32;
        model[k] = value;
    }
}
