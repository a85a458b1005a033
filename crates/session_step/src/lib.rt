// One more step in a table of distances, in time that grows with the table's size and not with the list's. The table may
// hold any numbers: one that is beyond all distances is read as no walk.

#![tactic(auto)]

ghost use Rattle.std.specs.Prelude.{◌≡◌, ◌*◌, ◌<◌, ◌≤◌, length};
ghost use Rattle.theory_walks.specs.Negative.{not_below0};
ghost use Rattle.decide_rows.specs.Stored.{stored};
ghost use Rattle.decide_rows.specs.Numbers.{StepOk};
ghost use Rattle.decide_rows.specs.Read.{distance_of, Short};
ghost use Rattle.decide_stored_table.specs.Sum.{max_tight};
ghost use Rattle.theory_inserting.specs.Insert.{closing};
ghost use Rattle.session_step.specs.Read.{small_of, small_table, SizedTable};
ghost use Rattle.session_step.specs.Done.{along, step_after};
ghost use Rattle.session_step.specs.Columns.{Collected};
ghost use Rattle.session_step.specs.Lower.{ColumnsIn, lower_all, StepRowReady, row_after};
ghost use Rattle.session_step.specs.Rows.{RowsReady};

use decide_rows::NO_WALK;
use decide_stored_table::{smaller, sum};
use integers::between;
use lines::limits::{MAX_VARIABLES, WORK_CONSTANT};
use steps::Step;

// Every distance is within plus and minus this: as many steps as there are points, each of at most twice a line's d.
const MAX_DISTANCE: i64 = 2 * MAX_VARIABLES as i64 * (2 * WORK_CONSTANT);

// How many points the most variables have.
pub const MOST_POINTS: usize = 2 * MAX_VARIABLES;

// A number of the table as it is read.
pub fn read(entry: i64) -> i64
    ensures { result ≡ stored (small_of entry) }
{
    if between(-MAX_DISTANCE, MAX_DISTANCE, entry) {
        entry
    } else {
        NO_WALK
    }
}

// The entry of the points u and v: row v has the distances to v.
pub fn read_at(table: &[i64], n: usize, u: usize, v: usize) -> i64
    requires { SizedTable n table.now × (u < 2 * n) × (v < 2 * n) }
    ensures { result ≡ stored (small_table (2 * n) table.now u v) }
{
    let at = v * (2 * n) + u;
    read(table[at])
}

// The distance from u to the step's start, and along the step.
pub fn sum_along(table: &[i64], n: usize, u: usize, step: Step) -> i64
    requires { SizedTable n table.now × StepOk n step × (u < 2 * n) }
    ensures { result ≡ stored (along (small_table (2 * n) table.now) step u) }
{
    sum(read_at(table, n, u, step.from), step.weight)
}

// Whether no closed walk through the step has a negative sum.
pub fn stays(table: &[i64], n: usize, step: Step) -> bool
    requires { SizedTable n table.now × StepOk n step }
    ensures { result ≡ not_below0 (closing (small_table (2 * n) table.now) step) }
{
    0 <= sum_along(table, n, step.to, step)
}

// The points that are farther from the step's end than along the step, in order, with the distances to its start and along
// it; how many there are. From the others the step leads to no point on a shorter way.
fn find_columns(
    table: &[i64],
    n: usize,
    step: Step,
    columns: &mut [usize],
    sums: &mut [i64],
) -> usize
    requires { SizedTable n table.now × StepOk n step × (2 * n ≤ length columns.old) × (2 * n ≤ length sums.old) }
    ensures { Collected (small_table (2 * n) table.now) step columns.old sums.old (2 * n)
        columns.new sums.new result }
{
    let count = 2 * n;
    let mut found = 0;
    for u in 0..count {
        let way = sum_along(table, n, u, step);
        let near = read_at(table, n, u, step.to) <= way;
        if !near {
            columns[found] = u;
            sums[found] = way;
            found += 1;
        }
    }
    found
}

// A row's entry in each of the columns, or the column's sum and the rest where that is less.
fn lower_row(row: &mut [i64], columns: &[usize], sums: &[i64], rest: i64)
    requires { ColumnsIn row.old columns.now sums.now × Short max_tight (distance_of rest) }
    ensures { row.new ≡ lower_all rest columns.now sums.now row.old }
{
    let count = columns.len();
    for k in 0..count {
        let u = columns[k];
        row[u] = smaller(row[u], sum(sums[k], rest));
    }
}

// A row, where the way along the step is shorter than the row's own from the step's start; of other rows no entry gets
// less.
fn put_in_row(row: &mut [i64], columns: &[usize], sums: &[i64], step: Step)
    requires { StepRowReady row.old columns.now sums.now step }
    ensures { row.new ≡ row_after row.old columns.now sums.now step }
{
    let from = step.from;
    let to = step.to;
    let rest = read(row[to]);
    if read(row[from]) <= sum(rest, step.weight) {
        return;
    }
    lower_row(row, columns, sums, rest);
}

// Each row.
fn put_in_rows(table: &mut [i64], n: usize, step: Step, columns: &[usize], sums: &[i64])
    requires { RowsReady n step table.old columns.now sums.now }
    ensures { table.new ≡ step_after (2 * n) step table.old }
{
    let size = 2 * n;
    for v in 0..size {
        let at = v * size;
        put_in_row(&mut table[at..at + size], columns, sums, step);
    }
}

// One more step in the table of 2n points: the distances with it, where no closed walk through it has a negative sum. Rows
// and columns that it changes nothing in are left alone.
pub fn put_step(table: &mut [i64], n: usize, step: Step)
    requires { SizedTable n table.old × StepOk n step }
    ensures { table.new ≡ step_after (2 * n) step table.old }
{
    let mut columns = [0usize; MOST_POINTS];
    let mut sums = [0i64; MOST_POINTS];
    let found = find_columns(table, n, step, &mut columns, &mut sums);
    put_in_rows(table, n, step, &columns[0..found], &sums[0..found]);
}
