// The table while it is made, on reduced weights. Behind the steps stand a number of each point (its potential) at
// `pot`, a row to copy to, and the table: an entry is twice the sum of a walk, and the number of its start less that of
// its end; or FAR. A function that stores only lowers an entry by a sum of two.

#![tactic(auto)]

ghost use Rattle.std.specs.Prelude.{◌≡◌, ◌<◌};
ghost use Rattle.lines.specs.Line.{number};
ghost use Rattle.engine_reduced_table.specs.Reduced.{cell, Reduced, Kept, Asked, LowerReady, NegativePart};
ghost use Rattle.engine_reduced_table.specs.Weight.{ReducedIf};

use engine_packed_steps::read_step;
use steps::Step;

// Stands for no walk while the table is made.
pub const FAR: i64 = 100_000_000_000_000;

// A row of the table has so many numbers more than points: the entries of a column then do not meet in one set of the cache.
pub const SPARE: usize = 8;

// A number below 0, or 0. With this instead of the smaller of two numbers a loop over a row is compiled to about half the time.
pub fn negative_part(d: i64) -> i64
    ensures { NegativePart d result }
{
    if d < 0 { d } else { 0 }
}

// Row i lowered by row k and the entry a from i to k, from a column on.
pub fn lower(
    work: &mut [i64],
    count: usize,
    pot: usize,
    size: usize,
    i: usize,
    k: usize,
    from: usize,
    a: i64,
)
    requires { LowerReady count pot size i k a work.old }
    ensures { Kept count pot size work.old work.new }
{
    let to = pot + 2 * size + i * (size + SPARE);
    let by = pot + 2 * size + k * (size + SPARE);
    for t in from..size {
        let sum = work[by + t] + a;
        let old = work[to + t];
        let less = negative_part(sum - old);
        work[to + t] = old + less;
    }
}

// The entry from i to j.
pub fn entry_at(work: &[i64], count: usize, pot: usize, size: usize, i: usize, j: usize) -> i64
    requires { Asked count pot size i j work.now }
    ensures { result ≡ number work.now (cell pot size i j) }
{
    let at = pot + 2 * size + i * (size + SPARE);
    work[at + j]
}

// The entry from i to j lowered to z, if that is lower.
pub fn lower_entry(
    work: &mut [i64],
    count: usize,
    pot: usize,
    size: usize,
    i: usize,
    j: usize,
    z: i64,
)
    requires { LowerReady count pot size i j z work.old }
    ensures { Kept count pot size work.old work.new }
{
    let at = pot + 2 * size + i * (size + SPARE);
    let old = work[at + j];
    if z < old {
        work[at + j] = z;
    }
}

// Step i of those at the front on reduced weights: twice its weight, and the number of its start less that of its end.
pub fn reduced_step(work: &[i64], count: usize, pot: usize, size: usize, i: usize) -> Option<Step>
    requires { Reduced count pot size work.now × (i < count) }
    ensures { ReducedIf count pot size work.now i result }
{
    let step = read_step(work, i);
    let from = step.from;
    let to = step.to;
    let weight = step.weight;
    let a = work[pot + from];
    let b = work[pot + to];
    let z = weight + weight + a - b;
    let negative = z < 0;
    if negative {
        return None;
    }
    if z < FAR {
        return Some(Step {
            from,
            to,
            weight: z,
        });
    }
    None
}
