// Elimination: the two points of one variable after the other leave, and later rows are lowered by theirs. Entries are
// only lowered by sums of two, so that the order is of no account for what the table means; what is reached is looked at
// in the end.

#![tactic(auto)]

ghost use Rattle.engine_reduced_table.specs.Reduced.{Reduced, Kept, Asked, PairReady};

use engine_reduced_table::{FAR, entry_at, lower};
use steps::opposite_of;

// Row i lowered by row k, where there is an entry from i to k: it stands as that of the mirror image.
fn through(work: &mut [i64], count: usize, pot: usize, size: usize, i: usize, k: usize, from: usize)
    requires { Asked count pot size i k work.old }
    ensures { Kept count pot size work.old work.new }
{
    let row = opposite_of(k);
    let column = opposite_of(i);
    let a = entry_at(work, count, pot, size, row, column);
    if a < FAR {
        lower(work, count, pot, size, i, k, from, a);
    }
}

// A variable's two points leave: later rows are lowered by theirs.
fn eliminate(work: &mut [i64], count: usize, pot: usize, size: usize, v: usize)
    requires { PairReady count pot size v work.old }
    ensures { Kept count pot size work.old work.new }
{
    let k = 2 * v;
    let o = k + 1;
    let f = k + 2;
    through(work, count, pot, size, k, o, f);
    through(work, count, pot, size, o, k, f);
    for i in f..size {
        let from = i - i % 2;
        through(work, count, pot, size, i, k, from);
        through(work, count, pot, size, i, o, from);
    }
}

// All variables leave, from a first one on.
pub fn eliminate_all(work: &mut [i64], count: usize, pot: usize, size: usize, first: usize)
    requires { Reduced count pot size work.old }
    ensures { Kept count pot size work.old work.new }
{
    let n = size / 2;
    for v in first..n {
        eliminate(work, count, pot, size, v);
    }
}
