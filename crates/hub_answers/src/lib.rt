// The answers of a list with one hub, read off its least weights: the model, the bounds, and groups in which each variable
// is its own.

#![tactic(auto)]

ghost use Rattle.std.specs.Prelude.{◌≡◌, ◌++◌, ◌*◌, ◌<◌, ◌≤◌, length, drop};
ghost use Rattle.integers.specs.Sequence.{tabulate};
ghost use Rattle.lines.specs.Limits.{max_variables};
ghost use Rattle.theory_hub.specs.Hub.{hub_model, greatest_at_lem, hub_bound_lem, own_group};
ghost use Rattle.decide_rows.specs.Stored.{stored};
ghost use Rattle.hub_weights.specs.Weights.{weights_in};
ghost use Rattle.hub_answers.specs.Written.{ModelAsked, BoundsAsked};
ghost use Rattle.hub_answers.specs.Answered.{HubAsked, HubAnswered, WeightsAsked, WeightsAnswered};

use decide_bounds_groups::ABSENT_LEAST;
use decide_false_line::first_false;
use decide_model::nearest_value;
use decide_rows::NO_WALK;
use decide_stored_table::sum;
use hub_limits::{all_loose, all_sound, cap_at, hub_limit, reach_at};
use hub_weights::lay_weights;
use lines::limits::LINE_SIZE;
use steps::opposite_of;

// The value of x in the model, where v is the hub's: the hub is variable 0.
fn value_at(weights: &[i64], n: usize, v: i64, x: usize) -> i64
    requires { ModelAsked n weights.now v × (x < n) }
    ensures { result ≡ hub_model n (weights_in n weights.now) x }
{
    if x == 0 {
        return v;
    }
    let up = cap_at(weights, n, v, 2 * x);
    let low = cap_at(weights, n, v, 2 * x + 1);
    nearest_value(up, low)
}

// The values of all n variables.
fn write_hub_model(weights: &[i64], n: usize, v: i64, model: &mut [i32])
    requires { ModelAsked n weights.now v × (n ≤ length model.old) }
    ensures { model.new ≡ tabulate n (hub_model n (weights_in n weights.now)) ++ drop n model.old }
{
    for x in 0..n {
        model[x] = value_at(weights, n, v, x) as i32;
    }
}

// The greatest value of the point p, where the hub's points have the greatest values a and b.
fn greatest_at(weights: &[i64], n: usize, a: i64, b: i64, p: usize) -> i64
    requires { BoundsAsked n weights.now a b × (p < 2 * n) }
    ensures { result ≡ stored (greatest_at_lem n (weights_in n weights.now) p) }
{
    if p == 0 {
        return a;
    }
    if p == 1 {
        return b;
    }
    reach_at(weights, n, a, b, p)
}

// The bound with number i: a variable's least, then its greatest. The point that it bounds is the opposite of i.
fn hub_bound(weights: &[i64], n: usize, a: i64, b: i64, i: usize) -> i64
    requires { BoundsAsked n weights.now a b × (i < 2 * n) }
    ensures { result ≡ hub_bound_lem n (weights_in n weights.now) i }
{
    let greatest = greatest_at(weights, n, a, b, opposite_of(i));
    if i % 2 != 0 {
        return greatest;
    }
    if greatest == NO_WALK {
        return ABSENT_LEAST;
    }
    -greatest
}

// The bounds of all n variables.
fn write_hub_bounds(weights: &[i64], n: usize, a: i64, b: i64, bounds: &mut [i64])
    requires { BoundsAsked n weights.now a b × (2 * n ≤ length bounds.old) }
    ensures { bounds.new ≡ tabulate (2 * n) (hub_bound_lem n (weights_in n weights.now)) ++ drop (2 * n) bounds.old }
{
    let count = 2 * n;
    for i in 0..count {
        bounds[i] = hub_bound(weights, n, a, b, i);
    }
}

// Groups in which each variable is its own, with the sign plus.
fn write_own_groups(n: usize, groups: &mut [u32])
    requires { (n ≤ max_variables) × (2 * n ≤ length groups.old) }
    ensures { groups.new ≡ tabulate (2 * n) own_group ++ drop (2 * n) groups.old }
{
    for x in 0..n {
        groups[2 * x] = x as u32;
        groups[2 * x + 1] = 0;
    }
}

// Answers from the least weights, if the list can hold and each variable but the hub has two values at least where the hub
// has its value in the model.
fn answered_from(
    weights: &[i64],
    n: usize,
    model: &mut [i32],
    bounds: &mut [i64],
    groups: &mut [u32],
) -> bool
    requires { WeightsAsked n weights.now model.old bounds.old groups.old }
    ensures { WeightsAnswered n weights.now model.old bounds.old groups.old model.new bounds.new groups.new result }
{
    if !all_sound(weights, n) {
        return false;
    }
    let a = hub_limit(weights, n, 0);
    let b = hub_limit(weights, n, 1);
    if sum(a, b) < 0 {
        return false;
    }
    let v = nearest_value(a, b);
    if !all_loose(weights, n, v) {
        return false;
    }
    write_hub_model(weights, n, v, model);
    write_hub_bounds(weights, n, a, b, bounds);
    write_own_groups(n, groups);
    true
}

// Answers a list with one hub that can hold, if each other variable has two values at least where the hub has its value in
// the model: writes the model, the bounds and the groups. If not, these stay as they are.
pub fn answered_by_hub(
    list: &[i32],
    n: usize,
    model: &mut [i32],
    bounds: &mut [i64],
    groups: &mut [u32],
    work: &mut [i64],
) -> bool
    requires { HubAsked n list.now model.old bounds.old groups.old work.old }
    ensures { HubAnswered n list.now model.old bounds.old groups.old work.old model.new bounds.new groups.new work.new result }
{
    if n == 0 {
        return false;
    }
    if !lay_weights(list, n, work) {
        return false;
    }
    if first_false(list) < list.len() / LINE_SIZE {
        return false;
    }
    answered_from(work, n, model, bounds, groups)
}
