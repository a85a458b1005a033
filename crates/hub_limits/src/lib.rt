// What the least weights of a list with one hub leave the hub's points and those of the other variables, and the tests
// whether the answers can be read off.

#![tactic(auto)]

ghost use Rattle.std.specs.Prelude.{◌≡◌, ◌*◌, ◌<◌, ◌≤◌};
ghost use Rattle.integers.specs.Integer.{Within};
ghost use Rattle.theory_hub.specs.Hub.{hub_points, weight_rows, own, cap, leaves, hub_limit_lem, reach, sound, loose, all_sound_lem, all_loose_lem};
ghost use Rattle.decide_rows.specs.Stored.{stored};
ghost use Rattle.decide_rows.specs.Read.{distance_of, Short};
ghost use Rattle.hub_weights.specs.Weights.{weights_in};
ghost use Rattle.hub_limits.specs.Ready.{WeightsShort, max_hub};

use decide_stored_table::{halved_distance, smaller, sum};
use hub_weights::{HUB_POINTS, OWN_ROW};
use steps::opposite_of;

// The weight of the point p in row k.
fn weight_at(weights: &[i64], n: usize, k: usize, p: usize) -> i64
    requires { WeightsShort n weights.now × (k < weight_rows) × (p < 2 * n) }
    ensures { result ≡ stored (weights_in n weights.now k p) }
{
    let at = k * (2 * n) + p;
    weights[at]
}

// The greatest value of the point p by itself.
fn own_at(weights: &[i64], n: usize, p: usize) -> i64
    requires { WeightsShort n weights.now × (p < 2 * n) }
    ensures { result ≡ stored (own (weights_in n weights.now) p) }
{
    halved_distance(weight_at(weights, n, OWN_ROW, p))
}

// What the variable of the point p leaves the hub's point g: by p alone, and by both points of p.
fn leaves_at(weights: &[i64], n: usize, g: usize, p: usize) -> i64
    requires { WeightsShort n weights.now × (g < hub_points) × (p < 2 * n) }
    ensures { result ≡ stored (leaves (weights_in n weights.now) g p) }
{
    let row = opposite_of(g);
    let there = weight_at(weights, n, row, p);
    let back = weight_at(weights, n, row, opposite_of(p));
    let alone = sum(own_at(weights, n, p), back);
    smaller(alone, halved_distance(sum(there, back)))
}

// The greatest value of the hub's point g: by itself, and by each point of the other variables.
pub fn hub_limit(weights: &[i64], n: usize, g: usize) -> i64
    requires { WeightsShort n weights.now × (1 ≤ n) × (g < hub_points) }
    ensures { result ≡ stored (hub_limit_lem n (weights_in n weights.now) g) }
{
    let count = 2 * n;
    let mut limit = own_at(weights, n, g);
    for p in HUB_POINTS..count {
        limit = smaller(limit, leaves_at(weights, n, g, p));
    }
    limit
}

// Whether the point p by itself, and with the hub at each value, has a greatest value that is not below its least.
fn sound_at(weights: &[i64], n: usize, p: usize) -> bool
    requires { WeightsShort n weights.now × (p < 2 * n) }
    ensures { result ≡ sound (weights_in n weights.now) p }
{
    let q = opposite_of(p);
    let alone = sum(own_at(weights, n, p), own_at(weights, n, q));
    let by_hub = sum(weight_at(weights, n, 0, p), weight_at(weights, n, 1, q));
    0 <= alone && 0 <= by_hub
}

// The same of all points of the other variables.
pub fn all_sound(weights: &[i64], n: usize) -> bool
    requires { WeightsShort n weights.now }
    ensures { result ≡ all_sound_lem n (weights_in n weights.now) }
{
    let count = 2 * n;
    for p in HUB_POINTS..count {
        if !sound_at(weights, n, p) {
            return false;
        }
    }
    true
}

// The greatest value of the point p where the hub has the value v.
pub fn cap_at(weights: &[i64], n: usize, v: i64, p: usize) -> i64
    requires { WeightsShort n weights.now × Within max_hub v × (p < 2 * n) }
    ensures { result ≡ stored (cap (weights_in n weights.now) v p) }
{
    let plus = sum(weight_at(weights, n, 0, p), v);
    let minus = sum(weight_at(weights, n, 1, p), -v);
    smaller(own_at(weights, n, p), smaller(plus, minus))
}

// Whether the point p has two values at least where the hub has the value v.
fn loose_at(weights: &[i64], n: usize, v: i64, p: usize) -> bool
    requires { WeightsShort n weights.now × Within max_hub v × (p < 2 * n) }
    ensures { result ≡ loose (weights_in n weights.now) v p }
{
    let there = cap_at(weights, n, v, p);
    let back = cap_at(weights, n, v, opposite_of(p));
    0 < sum(there, back)
}

// The same of all points of the other variables.
pub fn all_loose(weights: &[i64], n: usize, v: i64) -> bool
    requires { WeightsShort n weights.now × Within max_hub v }
    ensures { result ≡ all_loose_lem n (weights_in n weights.now) v }
{
    let count = 2 * n;
    for p in HUB_POINTS..count {
        if !loose_at(weights, n, v, p) {
            return false;
        }
    }
    true
}

// The greatest value of the point p of another variable where the hub's points have the greatest values a and b.
pub fn reach_at(weights: &[i64], n: usize, a: i64, b: i64, p: usize) -> i64
    requires { WeightsShort n weights.now × Short max_hub (distance_of a) × Short max_hub (distance_of b) × (p < 2 * n) }
    ensures { result ≡ stored (reach (weights_in n weights.now) (distance_of a) (distance_of b) p) }
{
    let plus = weight_at(weights, n, 0, p);
    let minus = weight_at(weights, n, 1, p);
    let both = halved_distance(sum(plus, minus));
    let by_minus = smaller(sum(minus, b), both);
    let by_hub = smaller(sum(plus, a), by_minus);
    smaller(own_at(weights, n, p), by_hub)
}
