// The rows of a source in the lent work area: a row holds a number for each point, the least sum of a walk from the source
// to it, or NO_WALK. Rows of several sources may stand side by side, as columns: point p of column j is at p * width + j.

#![tactic(auto)]

ghost use Rattle.std.specs.Prelude.{◌≡◌, ◌++◌, ◌+◌, ◌*◌, ◌<◌, ◌≤◌, length, take, drop};
ghost use Rattle.integers.specs.Integer.{Within};
ghost use Rattle.lines.specs.Line.{number, lines_of};
ghost use Rattle.steps.specs.Step.{max_weight, step_numbered_lem, steps_of, named};
ghost use Rattle.theory_walks.specs.Row.{start_row_lem};
ghost use Rattle.theory_walks.specs.Wide.{columns, wide};
ghost use Rattle.decide_rows.specs.Stored.{stored_row};
ghost use Rattle.decide_rows.specs.Copy.{CopyReady};
ghost use Rattle.decide_rows.specs.Read.{distance_of, Short, max_distance};
ghost use Rattle.decide_rows.specs.Relax.{relax_in, relaxed_by, ColumnsReady, Ready};
ghost use Rattle.decide_rows.specs.Next.{same_rows, with_next, RowReady, RowDone};
ghost use Rattle.decide_rows.specs.Rows.{RowsReady, RowsDone};

use lines::limits::LINE_SIZE;
use steps::{Step, step_numbered};

// Stands for no walk; no sum gets near it. In specs/ it is `stored none`.
pub const NO_WALK: i64 = i64::MAX;

// The size numbers at `from` copied to `to`, apart from them.
pub fn copy_row(work: &mut [i64], from: usize, to: usize, size: usize)
    requires { CopyReady from to size work.old }
    ensures { work.new ≡ take to work.old ++ take size (drop from work.old) ++ drop (to + size) work.old }
{
    work.copy_within(from..from + size, to);
}

// One step, from a point of the old row to one of the new row behind it.
pub fn relax_at(rows: &mut [i64], size: usize, from: usize, to: usize, weight: i64)
    requires { (length rows.old ≡ 2 * size) × (from < size) × (to < size) × Within max_weight weight × Short max_distance (distance_of (number rows.old from)) }
    ensures { rows.new ≡ relax_in rows.old size from to weight }
{
    let distance = rows[from];
    if distance == NO_WALK {
        return;
    }
    let sum = distance + weight;
    let at = size + to;
    let entry = rows[at];
    if sum < entry {
        rows[at] = sum;
    }
}

// One step in all columns.
fn relax_columns(rows: &mut [i64], size: usize, width: usize, step: Step)
    requires { ColumnsReady size width step rows.old }
    ensures { rows.new ≡ relaxed_by size rows.old (columns width width step) }
{
    let from = step.from * width;
    let to = step.to * width;
    for j in 0..width {
        relax_at(rows, size, from + j, to + j, step.weight);
    }
}

// The step with a number, where it names one.
fn relax_one(list: &[i32], n: usize, width: usize, rows: &mut [i64], number: usize)
    requires { Ready n width list.now rows.old }
    ensures { rows.new ≡ relaxed_by (2 * n * width) rows.old (wide width (named (step_numbered_lem list.now number))) }
{
    if let Some(t) = step_numbered(list, number) {
        relax_columns(rows, 2 * n * width, width, t);
    }
}

// One round: the old row, 2n numbers to a column, stands first; the new row comes behind it.
fn relax_row(list: &[i32], n: usize, width: usize, rows: &mut [i64])
    requires { Ready n width list.now rows.old }
    ensures { rows.new ≡ with_next (wide width (steps_of (lines_of list.now))) (take (2 * n * width) rows.old) }
{
    let size = 2 * n * width;
    copy_row(rows, 0, size, size);
    let count = 2 * (list.len() / LINE_SIZE);
    for number in 0..count {
        relax_one(list, n, width, rows, number);
    }
}

// Whether the first size numbers are the same as those behind them.
fn settled(rows: &[i64], size: usize) -> bool
    requires { length rows.now ≡ 2 * size }
    ensures { result ≡ same_rows size rows.now }
{
    rows[..size] == rows[size..]
}

// The start row of the source u: 0 at u, and NO_WALK elsewhere.
pub fn start_row(work: &mut [i64], size: usize, u: usize)
    requires { (u < size) × (size ≤ length work.old) }
    ensures { work.new ≡ stored_row (start_row_lem size u) ++ drop size work.old }
{
    work[..size].fill(NO_WALK);
    work[u] = 0;
}

// The row behind the row at `from`, and whether the two are the same.
pub fn next_row(list: &[i32], n: usize, width: usize, work: &mut [i64], from: usize) -> bool
    requires { RowReady n width list.now work.old from }
    ensures { RowDone (2 * n * width) (wide width (steps_of (lines_of list.now))) work.old from work.new result }
{
    let size = 2 * n * width;
    let to = from + 2 * size;
    relax_row(list, n, width, &mut work[from..to]);
    settled(&work[from..to], size)
}

// Rows 0, 1, .. of the source u one behind the other, until a row is the same as the one before it, the source's own entry
// is below 0, or 2n rounds are done. The number of the last row. An entry of the source below 0 is the sum of a closed walk:
// in the first row that has one the walk is as short as any of negative sum, and later rows would only go round it again.
pub fn rows(list: &[i32], n: usize, u: usize, work: &mut [i64]) -> usize
    requires { RowsReady n u list.now work.old }
    ensures { RowsDone (steps_of (lines_of list.now)) (2 * n) u work.old work.new result }
{
    let size = 2 * n;
    start_row(work, size, u);
    for k in 0..size {
        let from = k * size;
        let same = next_row(list, n, 1, work, from);
        let own_entry = work[from + size + u];
        if same || own_entry < 0 {
            return k + 1;
        }
    }
    size
}
