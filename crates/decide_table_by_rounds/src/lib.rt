// The table of distances between all points: the rows of all sources side by side, made in rounds.

#![tactic(auto)]

ghost use Rattle.std.specs.Prelude.{◌≡◌, ◌++◌, ◌+◌, ◌*◌, ◌<◌, ◌≤◌, length, take, drop};
ghost use Rattle.integers.specs.Lowest.{first_failing_lem};
ghost use Rattle.lines.specs.Line.{lines_of};
ghost use Rattle.steps.specs.Step.{steps_of};
ghost use Rattle.theory_walks.specs.Negative.{not_below0};
ghost use Rattle.theory_walks.specs.AllPairs.{start_table_lem};
ghost use Rattle.decide_rows.specs.Stored.{stored_row};
ghost use Rattle.decide_rows.specs.Table.{TableReady};
ghost use Rattle.decide_stored_table.specs.Table.{table_of, ShortTable};
ghost use Rattle.decide_table_by_rounds.specs.Made.{TableMade};

use decide_rows::{copy_row, next_row, start_row};
use decide_stored_table::entry_at;

// The table before the first round: each point's distance to itself is 0, and there is no other.
pub fn start_table(work: &mut [i64], place: usize, size: usize)
    requires { place + size * size ≤ length work.old }
    ensures { work.new ≡ take place work.old ++ stored_row (start_table_lem size size) ++ drop (place + size * size) work.old }
{
    for v in 0..size {
        let at = place + v * size;
        start_row(&mut work[at..at + size], size, v);
    }
}

// Whether the distance from u to itself is not below 0.
fn self_ok(table: &[i64], n: usize, u: usize) -> bool
    requires { ShortTable n table.now × (u < 2 * n) }
    ensures { result ≡ not_below0 (table_of (2 * n) table.now u u) }
{
    0 <= entry_at(table, n, u, u)
}

// The first point whose distance to itself is below 0, or 2n.
#[tactic(auto, using(integers::proofs::Searching::searching))]
fn first_negative(table: &[i64], n: usize) -> usize
    requires { ShortTable n table.now }
    ensures { result ≡ first_failing_lem (2 * n) (λ u. not_below0 (table_of (2 * n) table.now u u)) }
{
    let count = 2 * n;
    for u in 0..count {
        if !self_ok(table, n, u) {
            return u;
        }
    }
    count
}

// The distances between all points, behind the place that the rows of one source take: 2n. Or a point whose distance to
// itself is below 0, found before. The old table of a round stands right before the new one.
pub fn distance_table(list: &[i32], n: usize, work: &mut [i64]) -> usize
    requires { TableReady n list.now work.old }
    ensures { TableMade (steps_of (lines_of list.now)) (2 * n) work.old work.new result }
{
    let size = 2 * n;
    let cells = size * size;
    let start = size + cells;
    start_table(work, start, size);
    for k in 0..size {
        copy_row(work, start, size, cells);
        let same = next_row(list, n, size, work, size);
        let u = first_negative(&work[start..start + cells], n);
        if u < size {
            return u;
        }
        if same {
            return size;
        }
    }
    size
}
