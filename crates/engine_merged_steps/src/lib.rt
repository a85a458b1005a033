// The steps of a list at the front of the work area, at most as many as there are pairs of points: all of them, or of
// those between the same two points only the lightest. These are found in cells behind the front, one for each pair.

#![tactic(auto)]

ghost use Rattle.std.specs.Prelude.{◌≡◌, true, ◌+◌, ◌*◌, ◌≤◌, ◌<◌, length};
ghost use Rattle.lines.specs.Limits.{max_variables};
ghost use Rattle.lines.specs.Line.{line_count};
ghost use Rattle.steps.specs.Step.{step_numbered_lem};
ghost use Rattle.engine_packed_steps.specs.Laid.{LayReady, Laid};
ghost use Rattle.engine_merged_steps.specs.Cells.{Cleared, Lowered, PutReady, Put, PutsReady, StepsPut};
ghost use Rattle.engine_merged_steps.specs.Keep.{KeepReady, Keeping};

use engine_packed_steps::{packed, write_steps};
use lines::limits::LINE_SIZE;
use steps::step_numbered;

// Stands in a cell for no step.
const NO_STEP: i64 = 9_000_000_000_000_000_000;

// No step in any cell.
fn clear_cells(work: &mut [i64], start: usize, cells: usize)
    requires { start + cells ≤ length work.old }
    ensures { Cleared start cells work.old work.new cells }
{
    for c in 0..cells {
        work[start + c] = NO_STEP;
    }
}

// A number in a cell, if it is less than the one that stands there.
fn lower_cell(work: &mut [i64], place: usize, z: i64)
    requires { place < length work.old }
    ensures { Lowered place z work.old work.new }
{
    if z < work[place] {
        work[place] = z;
    }
}

// The step with a number, where it names one, in the cell of its ends, if none stands there that is lighter.
fn put_step(list: &[i32], n: usize, work: &mut [i64], start: usize, number: usize)
    requires { PutReady n start list.now work.old number }
    ensures { Put n start (step_numbered_lem list.now number) work.old work.new }
{
    let named = step_numbered(list, number);
    if let Some(t) = named {
        let cell = t.from * (2 * n) + t.to;
        lower_cell(work, start + cell, packed(t.from, t.to, t.weight, number));
    }
}

// The lightest step between each two points in their cell.
fn put_steps(list: &[i32], n: usize, work: &mut [i64], start: usize)
    requires { PutsReady n start list.now work.old }
    ensures { StepsPut n start list.now work.old work.new (2 * line_count list.now) }
{
    let count = 2 * (list.len() / LINE_SIZE);
    for number in 0..count {
        put_step(list, n, work, start, number);
    }
}

// What stands in the cells, one behind the other at the front. How many.
fn keep_steps(work: &mut [i64], start: usize, cells: usize) -> usize
    requires { KeepReady start cells work.old }
    ensures { Keeping start cells work.old work.new cells result }
{
    let mut kept = 0;
    for c in 0..cells {
        let z = work[start + c];
        work[kept] = z;
        if z < NO_STEP {
            kept += 1;
        }
    }
    kept
}

// The lightest step between each two points. How many.
pub fn merge_steps(list: &[i32], n: usize, work: &mut [i64]) -> usize
    requires { LayReady n list.now work.old }
    ensures { Laid n list.now work.old work.new result }
{
    let cells = 2 * n * (2 * n);
    let start = cells + 2 * n;
    clear_cells(work, start, cells);
    put_steps(list, n, work, start);
    keep_steps(work, start, cells)
}

// Whether all steps of a list are laid: there is room for them, and not many go between the same points.
pub fn all_laid(list: &[i32], n: usize) -> bool
    requires { n ≤ max_variables }
    ensures { result ≡ true → 2 * line_count list.now ≤ 2 * n * (2 * n) }
{
    if 8 * (list.len() / LINE_SIZE) <= 2 * n * (2 * n) {
        return true;
    }
    false
}

// All steps, or else the lightest between each two points. How many.
pub fn lay_steps(list: &[i32], n: usize, work: &mut [i64]) -> usize
    requires { LayReady n list.now work.old }
    ensures { Laid n list.now work.old work.new result }
{
    if all_laid(list, n) {
        write_steps(list, n, work)
    } else {
        merge_steps(list, n, work)
    }
}
