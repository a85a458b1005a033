// The first point whose halves are not consistent, read off the table of distances.

#![tactic(auto)]

ghost use Rattle.std.specs.Prelude.{◌≡◌, ◌*◌, ◌<◌};
ghost use Rattle.integers.specs.Lowest.{first_failing_lem};
ghost use Rattle.theory_bounds.specs.Verdict.{halves_ok_lem};
ghost use Rattle.decide_stored_table.specs.Table.{table_of, ShortTable};

use decide_stored_table::{half_at, sum};
use steps::opposite_of;

// Whether the greatest value of a point is not below its least.
fn halves_ok(table: &[i64], n: usize, p: usize) -> bool
    requires { ShortTable n table.now × (p < 2 * n) }
    ensures { result ≡ halves_ok_lem (table_of (2 * n) table.now) p }
{
    0 <= sum(half_at(table, n, p), half_at(table, n, opposite_of(p)))
}

// The first point whose halves are not consistent, or 2n.
#[tactic(auto, using(integers::proofs::Searching::searching))]
pub fn first_bad(table: &[i64], n: usize) -> usize
    requires { ShortTable n table.now }
    ensures { result ≡ first_failing_lem (2 * n) (halves_ok_lem (table_of (2 * n) table.now)) }
{
    let count = 2 * n;
    for p in 0..count {
        if !halves_ok(table, n, p) {
            return p;
        }
    }
    count
}
