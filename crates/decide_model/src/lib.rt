// The model of a table of distances: variables in number order, each the possible value nearest zero, given those before.

#![tactic(auto)]

ghost use Rattle.std.specs.Prelude.{◌≡◌, ◌++◌, ◌+◌, ◌*◌, ◌<◌, ◌≤◌, length, drop};
ghost use Rattle.integers.specs.Integer.{Within};
ghost use Rattle.integers.specs.Sequence.{tabulate};
ghost use Rattle.theory_walks.specs.Distance.{some, min_d, ◌⊞◌};
ghost use Rattle.theory_bounds.specs.Near.{near};
ghost use Rattle.theory_bounds.specs.Table.{table_model};
ghost use Rattle.decide_rows.specs.Stored.{stored};
ghost use Rattle.decide_rows.specs.Read.{distance_of, Short};
ghost use Rattle.decide_stored_table.specs.Sum.{max_sum};
ghost use Rattle.decide_stored_table.specs.Table.{table_of, by_rows, ShortTable};
ghost use Rattle.decide_model.specs.Limit.{max_model, by_value, limit_of, LimitReady, ValueReady};
ghost use Rattle.decide_model.specs.Written.{pick_of, ModelReady};
ghost use Rattle.decide_model.specs.Values.{small_value_lem, values_of};

use decide_rows::NO_WALK;
use decide_stored_table::{half_at, mirrored_at, smaller, sum};
use integers::between;
use lines::limits::{MAX_VARIABLES, MODEL_CONSTANT};

// A model's values lie within plus and minus this.
const MAX_MODEL: i64 = MAX_VARIABLES as i64 * MODEL_CONSTANT;

// The greatest value of the point p, given that of a point q before it: by their distance alone, since by their halves the
// half of p says as much.
fn limit_by(table: &[i64], n: usize, p: usize, q: usize, value: i64) -> i64
    requires { ShortTable n table.now × (p < 2 * n) × (q < p) × Within max_model value }
    ensures { result ≡ stored (by_rows (2 * n) table.now p q ⊞ some value) }
{
    sum(mirrored_at(table, n, p, q), value)
}

// One variable more: the limit of p, given the value of x too.
fn limit_step(table: &[i64], n: usize, p: usize, x: usize, value: i64, limit: i64) -> i64
    requires { ShortTable n table.now × (p < 2 * n) × (2 * x + 1 < p) × Within max_model value }
    ensures { result ≡ stored (min_d (distance_of limit) (by_value (by_rows (2 * n) table.now) p x value)) }
{
    let plus = limit_by(table, n, p, 2 * x, value);
    let minus = limit_by(table, n, p, 2 * x + 1, -value);
    smaller(limit, smaller(plus, minus))
}

// The greatest value of the point p, given the values of the first variables.
fn limit_at(table: &[i64], n: usize, p: usize, values: &[i32]) -> i64
    requires { LimitReady n p table.now values.now }
    ensures { result ≡ stored (limit_of (by_rows (2 * n) table.now) values.now (length values.now) p) }
{
    let mut limit = half_at(table, n, p);
    for x in 0..values.len() {
        limit = limit_step(table, n, p, x, values[x] as i64, limit);
    }
    limit
}

// The number nearest zero that is at most `up`, and whose opposite is at most `low`. NO_WALK is no end.
pub fn nearest_value(up: i64, low: i64) -> i64
    requires { Short max_sum (distance_of low) }
    ensures { result ≡ near (distance_of up) (distance_of low) }
{
    let high = smaller(up, 0);
    if low == NO_WALK {
        return high;
    }
    let least = -low;
    if high < least { least } else { high }
}

// The value of the next variable, given those of the first ones.
fn next_value(table: &[i64], n: usize, values: &[i32]) -> i64
    requires { ValueReady n table.now values.now }
    ensures { result ≡ pick_of (by_rows (2 * n) table.now) values.now }
{
    let k = values.len();
    let up = limit_at(table, n, 2 * k, values);
    let low = limit_at(table, n, 2 * k + 1, values);
    nearest_value(up, low)
}

// A value as it is kept: one that is beyond all models is 0.
pub fn small_value(value: i64) -> i64
    ensures { result ≡ small_value_lem value }
{
    if between(-MAX_MODEL, MAX_MODEL, value) {
        value
    } else {
        0
    }
}

// The values of the n variables at the front of `model`, whatever distances the table has: each is small enough for 32 bits.
pub fn write_values(table: &[i64], n: usize, model: &mut [i32])
    requires { ShortTable n table.now × (n ≤ length model.old) }
    ensures { model.new ≡ values_of (by_rows (2 * n) table.now) n ++ drop n model.old }
{
    for k in 0..n {
        let value = small_value(next_value(table, n, &model[0..k])) as i32;
        model[k] = value;
    }
}

// Where the table is closed, the values are the model.
pub fn write_model(table: &[i64], n: usize, model: &mut [i32])
    requires { ModelReady n table.now model.old }
    ensures { model.new ≡ tabulate n (table_model n (table_of (2 * n) table.now)) ++ drop n model.old }
{
    write_values(table, n, model);
}
