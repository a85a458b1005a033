// What deciding writes on a yes, read off the table of distances: bounds and groups.

#![tactic(auto)]

ghost use Rattle.std.specs.Prelude.{◌≡◌, ◌++◌, ◌+◌, ◌*◌, ◌<◌, ◌≤◌, length, drop};
ghost use Rattle.integers.specs.Sequence.{tabulate};
ghost use Rattle.steps.specs.Point.{point, opposite};
ghost use Rattle.theory_bounds.specs.Tight.{halves};
ghost use Rattle.theory_bounds.specs.Answers.{bound_at, greatest_of, least_of, same_points_lem, group_point_lem, group_at_lem};
ghost use Rattle.decide_rows.specs.Stored.{stored};
ghost use Rattle.decide_rows.specs.Read.{distance_of};
ghost use Rattle.decide_stored_table.specs.Table.{table_of, by_rows, ShortTable};
ghost use Rattle.decide_bounds_groups.specs.Grouping.{half_in, tight_in, HalfReady, GroupsReady};

use decide_rows::NO_WALK;
use decide_stored_table::{entry_at, half_at, mirrored_at, tightened};
use steps::opposite_of;

// Written for a least value that is absent.
pub const ABSENT_LEAST: i64 = i64::MIN;

// The greatest value of x. An absent one is written as the number that stands for no walk.
fn greatest_at(table: &[i64], n: usize, x: usize) -> i64
    requires { ShortTable n table.now × (x < n) }
    ensures { result ≡ greatest_of (halves (table_of (2 * n) table.now) (point x 0)) }
{
    half_at(table, n, 2 * x)
}

// The least value of x is the greatest of -x, negated.
fn least_at(table: &[i64], n: usize, x: usize) -> i64
    requires { ShortTable n table.now × (x < n) }
    ensures { result ≡ least_of (halves (table_of (2 * n) table.now) (point x 1)) }
{
    let half = half_at(table, n, 2 * x + 1);
    if half == NO_WALK {
        return ABSENT_LEAST;
    }
    -half
}

// The bound with number i: a variable's least, then its greatest.
fn bound_at(table: &[i64], n: usize, i: usize) -> i64
    requires { ShortTable n table.now × (i < 2 * n) }
    ensures { result ≡ bound_at (table_of (2 * n) table.now) i }
{
    if i % 2 == 0 {
        return least_at(table, n, i / 2);
    }
    greatest_at(table, n, i / 2)
}

// The bounds of all n variables.
pub fn write_bounds(table: &[i64], n: usize, bounds: &mut [i64])
    requires { ShortTable n table.now × (2 * n ≤ length bounds.old) }
    ensures { bounds.new ≡ tabulate (2 * n) (bound_at (table_of (2 * n) table.now)) ++ drop (2 * n) bounds.old }
{
    let count = 2 * n;
    for i in 0..count {
        bounds[i] = bound_at(table, n, i);
    }
}

// The half of the point p, read off the bounds: the greatest value of its variable, or the least one negated.
fn half_of(bounds: &[i64], p: usize) -> i64
    requires { opposite p < length bounds.now }
    ensures { result ≡ half_in bounds.now p }
{
    let at = opposite_of(p);
    let bound = bounds[at];
    if p % 2 == 0 {
        return bound;
    }
    if bound == ABSENT_LEAST {
        return NO_WALK;
    }
    -bound
}

// The tightened distance from p to q, given their distance.
fn tight_by(bounds: &[i64], distance: i64, p: usize, q: usize) -> i64
    requires { HalfReady bounds.now p × HalfReady bounds.now (opposite q) }
    ensures { result ≡ stored (tight_in bounds.now (distance_of distance) p q) }
{
    tightened(
        distance,
        half_of(bounds, p),
        half_of(bounds, opposite_of(q)),
    )
}

// Whether p and a point q before it have the same value in every solution. Both distances are read in the rows of p and its
// opposite.
fn same_points(table: &[i64], n: usize, bounds: &[i64], p: usize, q: usize) -> bool
    requires { GroupsReady n table.now bounds.now × (p < 2 * n) × (q < p) }
    ensures { result ≡ same_points_lem (by_rows (2 * n) table.now) p q }
{
    if 0 < tight_by(bounds, mirrored_at(table, n, p, q), p, q) {
        return false;
    }
    tight_by(bounds, entry_at(table, n, q, p), q, p) <= 0
}

// The lowest point that has the value of x in every solution: the plus point of x at the latest.
#[tactic(auto, using(integers::proofs::Searching::searching))]
fn group_point(table: &[i64], n: usize, bounds: &[i64], x: usize) -> usize
    requires { GroupsReady n table.now bounds.now × (x < n) }
    ensures { result ≡ group_point_lem (by_rows (2 * n) table.now) x }
{
    let own = 2 * x;
    for p in 0..own {
        if same_points(table, n, bounds, own, p) {
            return p;
        }
    }
    own
}

// The groups of all n variables, whose bounds are written: of each the variable of its lowest point, then the sign.
pub fn write_groups(table: &[i64], n: usize, bounds: &[i64], groups: &mut [u32])
    requires { GroupsReady n table.now bounds.now × (2 * n ≤ length groups.old) }
    ensures { groups.new ≡ tabulate (2 * n) (group_at_lem (by_rows (2 * n) table.now)) ++ drop (2 * n) groups.old }
{
    for x in 0..n {
        let p = group_point(table, n, bounds, x);
        groups[2 * x] = (p / 2) as u32;
        groups[2 * x + 1] = (p % 2) as u32;
    }
}
