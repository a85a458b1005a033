// The rows of distances, written from the settled table on reduced weights, whose points are renamed: row v holds at u the
// entry between the renamed opposites of v and u, turned back.

#![tactic(auto)]

ghost use Rattle.std.specs.Prelude.{◌≡◌, ◌+◌};
ghost use Rattle.lines.specs.Line.{number};
ghost use Rattle.decide_rows.specs.Stored.{stored};
ghost use Rattle.engine_settled_table.specs.Out.{out_of};
ghost use Rattle.engine_finished_rows.specs.Kept.{RowsReady};
ghost use Rattle.engine_finished_rows.specs.Rows.{ColumnReady, RowReady, RowWritten, RowsWritten};

use engine_reduced_table::SPARE;
use engine_renaming::renamed_point;
use engine_settled_table::distance_of;
use steps::opposite_of;

// The entry of column j in a row of the table, turned back.
fn turned_back(work: &[i64], pot: usize, row: usize, own: i64, j: usize) -> i64
    requires { ColumnReady pot row j own work.now }
    ensures { result ≡ stored (out_of own (number work.now (pot + j)) (number work.now (row + j))) }
{
    let z = work[row + j];
    let other = work[pot + j];
    distance_of(z, own, other)
}

// The row of v, at a place: the two points of a variable at once, whose renamed points are side by side.
fn write_row(
    work: &mut [i64],
    count: usize,
    n: usize,
    at: usize,
    pot: usize,
    place: usize,
    v: usize,
)
    requires { RowReady count n at pot place v work.old }
    ensures { RowWritten count n at place v work.old work.new }
{
    let size = 2 * n;
    let i = renamed_point(work, n, at, opposite_of(v));
    let own = work[pot + i];
    let row = pot + 2 * size + i * (size + SPARE);
    for x in 0..n {
        let u = 2 * x;
        let j = renamed_point(work, n, at, u);
        let first = turned_back(work, pot, row, own, j + 1);
        let second = turned_back(work, pot, row, own, j);
        work[place + u] = first;
        work[place + u + 1] = second;
    }
}

// The rows of all points, one behind the other.
pub fn write_rows(work: &mut [i64], count: usize, n: usize, at: usize, pot: usize)
    requires { RowsReady count n at pot work.old }
    ensures { RowsWritten count n at work.old work.new }
{
    let size = 2 * n;
    let start = (size + 1) * size;
    for v in 0..size {
        write_row(work, count, n, at, pot, start + v * size, v);
    }
}
