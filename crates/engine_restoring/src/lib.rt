// Restoring: the variables that left come back in the opposite order, each with its two rows, the entries between its
// points, and its columns, which are those rows of the mirror image. Entries are only lowered by sums of two, or to the
// mirror image's.

#![tactic(auto)]

ghost use Rattle.engine_reduced_table.specs.Reduced.{Reduced, Kept, Asked, PairReady};

use decide_rows::copy_row;
use engine_elimination::eliminate_all;
use engine_reduced_table::{FAR, SPARE, entry_at, lower, lower_entry};
use steps::opposite_of;

// Row k lowered by row j and the entry between them, if that is still what was copied: a walk that is shorter has been
// through other rows.
fn lower_copied(
    work: &mut [i64],
    count: usize,
    pot: usize,
    size: usize,
    k: usize,
    j: usize,
    from: usize,
)
    requires { Asked count pot size k j work.old }
    ensures { Kept count pot size work.old work.new }
{
    let a = entry_at(work, count, pot, size, k, j);
    if a < FAR {
        let copied = work[pot + size + j];
        if a == copied {
            lower(work, count, pot, size, k, j, from, a);
        }
    }
}

// Row k comes back: it is lowered by the later rows.
fn restore_row(work: &mut [i64], count: usize, pot: usize, size: usize, k: usize, from: usize)
    requires { Asked count pot size k k work.old }
    ensures { Kept count pot size work.old work.new }
{
    let at = pot + 2 * size + k * (size + SPARE);
    let copy = pot + size;
    copy_row(work, at, copy, size);
    for j in from..size {
        lower_copied(work, count, pot, size, k, j, from);
    }
}

// The entry from k to its opposite lowered by a walk from k to j and the mirror image of one from k to the opposite of j.
fn lower_own(work: &mut [i64], count: usize, pot: usize, size: usize, k: usize, j: usize)
    requires { Asked count pot size k j work.old }
    ensures { Kept count pot size work.old work.new }
{
    let other = opposite_of(j);
    let first = entry_at(work, count, pot, size, k, j);
    let second = entry_at(work, count, pot, size, k, other);
    let sum = first + second;
    if sum < FAR {
        let own = opposite_of(k);
        lower_entry(work, count, pot, size, k, own, sum);
    }
}

// The entry from j to c lowered to that of the mirror image, if there is one: a column's entries are far apart in memory.
fn take(work: &mut [i64], count: usize, pot: usize, size: usize, j: usize, c: usize)
    requires { Asked count pot size j c work.old }
    ensures { Kept count pot size work.old work.new }
{
    let row = opposite_of(c);
    let column = opposite_of(j);
    let z = entry_at(work, count, pot, size, row, column);
    if z < FAR {
        lower_entry(work, count, pot, size, j, c, z);
    }
}

// A variable's two points come back: their rows, the entries between them, and their columns.
fn restore(work: &mut [i64], count: usize, pot: usize, size: usize, v: usize)
    requires { PairReady count pot size v work.old }
    ensures { Kept count pot size work.old work.new }
{
    let k = 2 * v;
    let o = k + 1;
    let f = k + 2;
    restore_row(work, count, pot, size, k, f);
    restore_row(work, count, pot, size, o, f);
    for j in f..size {
        lower_own(work, count, pot, size, k, j);
        lower_own(work, count, pot, size, o, j);
        take(work, count, pot, size, j, k);
        take(work, count, pot, size, j, o);
    }
}

// All variables come back, the last one first, down to a first one.
fn restore_all(work: &mut [i64], count: usize, pot: usize, size: usize, first: usize)
    requires { Reduced count pot size work.old }
    ensures { Kept count pot size work.old work.new }
{
    for v in (first..size / 2).rev() {
        restore(work, count, pot, size, v);
    }
}

// The table closed: all variables from a first one on leave, and come back in the opposite order.
pub fn close(work: &mut [i64], count: usize, pot: usize, size: usize, first: usize)
    requires { Reduced count pot size work.old }
    ensures { Kept count pot size work.old work.new }
{
    eliminate_all(work, count, pot, size, first);
    restore_all(work, count, pot, size, first);
}
