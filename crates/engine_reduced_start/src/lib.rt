// The table before anything leaves: the numbers of points, FAR everywhere, 0 on the diagonal, and the reduced weights of the steps.

#![tactic(auto)]

ghost use Rattle.std.specs.Prelude.{◌<◌, ◌≤◌, ◌+◌, ◌*◌, length};
ghost use Rattle.integers.specs.Integer.{Within};
ghost use Rattle.engine_reduced_start.specs.Start.{max_read, PointsReady, Pointed, AllFar};
ghost use Rattle.engine_packed_steps.specs.Layout.{row_width};
ghost use Rattle.engine_reduced_table.specs.Reduced.{table_end, Reduced, Kept};

use engine_reduced_table::{FAR, SPARE, lower_entry, reduced_step};

// A potential that is larger is not used.
const LARGE: i64 = 5_000_000_000_000;

// A number that is not large, or 0.
fn not_large(z: i64) -> i64
    ensures { Within max_read result }
{
    let low = z < -LARGE;
    if low {
        return 0;
    }
    let high = z > LARGE;
    if high {
        return 0;
    }
    z
}

// The variable at a place of an order of `half` variables: what stands there if it is one, else 0.
fn variable_at(work: &[i64], order: usize, half: usize, place: usize) -> usize
    requires { (order + half ≤ length work.now) × (place < half) }
    ensures { result < half }
{
    let z = work[order + place];
    let below = z < 0;
    if below {
        return 0;
    }
    let x = z as usize;
    if x < half {
        return x;
    }
    0
}

// The numbers of points, in an order of the variables: of the two numbers that a row holds for the points of the variable
// at a place, the difference and its negative. Nothing is asked of the row's numbers and the order's.
pub fn write_points(
    work: &mut [i64],
    count: usize,
    pot: usize,
    size: usize,
    row: usize,
    order: usize,
)
    requires { PointsReady count pot size row order work.old }
    ensures { Pointed pot size work.old work.new size }
{
    let half = size / 2;
    for place in 0..half {
        let x = variable_at(work, order, half, place);
        let at = row + 2 * x;
        let own = not_large(work[at]);
        let other = not_large(work[at + 1]);
        let number = own - other;
        let k = 2 * place;
        work[pot + k] = number;
        work[pot + k + 1] = 0 - number;
    }
}

// Far everywhere.
pub fn fill_far(work: &mut [i64], pot: usize, size: usize)
    requires { table_end pot size ≤ length work.old }
    ensures { AllFar pot size work.old work.new (size * row_width size) }
{
    let start = pot + 2 * size;
    let cells = size * (size + SPARE);
    for k in 0..cells {
        work[start + k] = FAR;
    }
}

// One step's entry.
fn put_step(work: &mut [i64], count: usize, pot: usize, size: usize, i: usize)
    requires { Reduced count pot size work.old × (i < count) }
    ensures { Kept count pot size work.old work.new }
{
    if let Some(s) = reduced_step(work, count, pot, size, i) {
        lower_entry(work, count, pot, size, s.from, s.to, s.weight);
    }
}

// The entries of all steps.
fn put_steps(work: &mut [i64], count: usize, pot: usize, size: usize)
    requires { Reduced count pot size work.old }
    ensures { Kept count pot size work.old work.new }
{
    for i in 0..count {
        put_step(work, count, pot, size, i);
    }
}

// 0 on the diagonal.
fn put_diagonal(work: &mut [i64], count: usize, pot: usize, size: usize)
    requires { Reduced count pot size work.old }
    ensures { Kept count pot size work.old work.new }
{
    for t in 0..size {
        lower_entry(work, count, pot, size, t, t, 0);
    }
}

// The diagonal and the steps.
pub fn put_all(work: &mut [i64], count: usize, pot: usize, size: usize)
    requires { Reduced count pot size work.old }
    ensures { Kept count pot size work.old work.new }
{
    put_diagonal(work, count, pot, size);
    put_steps(work, count, pot, size);
}
