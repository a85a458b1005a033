// A table of distances read by rows: the distance of two points, tightened or not, and a point's half.

#![tactic(auto)]

ghost use Rattle.std.specs.Prelude.{◌≡◌, ◌+◌, ◌*◌, ◌<◌};
ghost use Rattle.lines.specs.Line.{number};
ghost use Rattle.theory_walks.specs.Distance.{min_d, ◌⊞◌, half_d};
ghost use Rattle.theory_bounds.specs.Tight.{halves};
ghost use Rattle.decide_rows.specs.Stored.{stored};
ghost use Rattle.decide_rows.specs.Read.{distance_of, Short, max_distance};
ghost use Rattle.decide_stored_table.specs.Sum.{max_tight};
ghost use Rattle.decide_stored_table.specs.Table.{table_of, by_rows, ShortTable};

use decide_rows::NO_WALK;
use integers::halved;
use steps::opposite_of;

// The smaller of two distances: NO_WALK is above every number.
pub fn smaller(a: i64, b: i64) -> i64
    ensures { result ≡ stored (min_d (distance_of a) (distance_of b)) }
{
    if b < a { b } else { a }
}

// The sum of two distances, none where one of them is.
pub fn sum(a: i64, b: i64) -> i64
    requires { Short max_tight (distance_of a) × Short max_tight (distance_of b) }
    ensures { result ≡ stored (distance_of a ⊞ distance_of b) }
{
    if a == NO_WALK {
        return NO_WALK;
    }
    if b == NO_WALK {
        return NO_WALK;
    }
    a + b
}

// Half of a distance, none where there is none.
pub fn halved_distance(distance: i64) -> i64
    ensures { result ≡ stored (half_d (distance_of distance)) }
{
    if distance == NO_WALK {
        return NO_WALK;
    }
    halved(distance)
}

// The entry of the points u and v: row v has the distances to v.
pub fn entry_at(table: &[i64], n: usize, u: usize, v: usize) -> i64
    requires { ShortTable n table.now × (u < 2 * n) × (v < 2 * n) }
    ensures { result ≡ number table.now (v * (2 * n) + u) }
{
    let at = v * (2 * n) + u;
    table[at]
}

// The distance from u to a point v before it, read where the distance between their opposites stands: those from one point
// then stand in one row.
pub fn mirrored_at(table: &[i64], n: usize, u: usize, v: usize) -> i64
    requires { ShortTable n table.now × (u < 2 * n) × (v < u) }
    ensures { result ≡ stored (by_rows (2 * n) table.now u v) }
{
    entry_at(table, n, opposite_of(v), opposite_of(u))
}

// The greatest value that the distance to its opposite leaves the point p.
pub fn half_at(table: &[i64], n: usize, p: usize) -> i64
    requires { ShortTable n table.now × (p < 2 * n) }
    ensures { result ≡ stored (halves (table_of (2 * n) table.now) p) }
{
    let distance = entry_at(table, n, p, opposite_of(p));
    if distance == NO_WALK {
        return NO_WALK;
    }
    halved(distance)
}

// The tightened distance of two points: their distance, or two halves together where that is less.
pub fn tightened(distance: i64, half: i64, other: i64) -> i64
    requires { Short max_distance (distance_of half) × Short max_distance (distance_of other) }
    ensures { result ≡ stored (min_d (distance_of distance) (distance_of half ⊞ distance_of other)) }
{
    let by_halves = sum(half, other);
    smaller(distance, by_halves)
}
