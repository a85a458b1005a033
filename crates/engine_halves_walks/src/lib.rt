// A refutation of kind 2 at once: passes over the packed steps leave at each point that they lower the step, and the
// marks are followed back from a point to its opposite, and from this to the point. What they lead along is checked, so
// that nothing is asked of the passes; where it is no refutation, nothing is written.

#![tactic(auto)]

ghost use Rattle.std.specs.Prelude.{◌+◌, ◌*◌, ◌<◌, ◌≤◌, length};
ghost use Rattle.decide_written_walks.specs.Refutation.{HalvesReady};
ghost use Rattle.engine_closed_walk.specs.Passes.{PassReady, Passed};
ghost use Rattle.engine_packed_steps.specs.Layout.{places_at};
ghost use Rattle.engine_halves_walks.specs.Between.{BetweenReady, WalkedBetween};
ghost use Rattle.engine_halves_walks.specs.Halves.{HalvesAtOnce};

use check_refutation::HEAD_SIZE;
use decide_written_walks::{copy_numbers, write_head};
use engine_closed_walk::{ALL, Followed, LOWEST_MARK, fill, follow_back, mark_turn};
use engine_merged_steps::lay_steps;
use engine_packed_steps::layout::row_at;
use integers::halved;
use steps::opposite_of;

// Stands in a row for no walk.
const FAR: i64 = -LOWEST_MARK;

// A row in which only its source is reached, with no mark behind it.
fn start_row(work: &mut [i64], row: usize, size: usize, source: usize)
    requires { (row + 2 * size ≤ length work.old) × (source < size) }
    ensures { Passed row size work.old work.new size }
{
    let marks = row + size;
    fill(work, row, marks, FAR);
    fill(work, marks, marks + size, -1);
    work[row + source] = 0;
}

// Passes until one lowers nothing, at most one more than points.
fn pass_all(work: &mut [i64], count: usize, row: usize, size: usize)
    requires { PassReady count row size work.old }
    ensures { Passed row size work.old work.new size }
{
    for turn in 0..=size {
        let last = mark_turn(work, count, row, size, turn, ALL);
        if size <= last {
            return;
        }
    }
}

// A walk from u to v over the steps at the front, followed back after passes from u.
fn walk_between(
    list: &[i32],
    n: usize,
    count: usize,
    work: &mut [i64],
    u: usize,
    v: usize,
    end: usize,
) -> Followed
    requires { BetweenReady n list.now count work.old u v end }
    ensures { WalkedBetween n list.now work.old u v end work.new result }
{
    let row = row_at(n);
    start_row(work, row, 2 * n, u);
    pass_all(work, count, row, 2 * n);
    follow_back(list, n, work, u, v, end)
}

// Whether two such walks, from p to its opposite and back, refute the list: then the refutation is written.
pub fn halves_at_once(
    list: &[i32],
    n: usize,
    p: usize,
    refutation: &mut [u32],
    work: &mut [i64],
) -> bool
    requires { HalvesReady n list.now p refutation.old work.old × (places_at n ≤ length work.old) }
    ensures { HalvesAtOnce n list.now refutation.old work.old refutation.new work.new result }
{
    let q = opposite_of(p);
    let row = row_at(n);
    let count = lay_steps(list, n, work);
    let back = walk_between(list, n, count, work, q, p, row);
    let middle = back.start;
    if middle == row {
        return false;
    }
    let there = walk_between(list, n, count, work, p, q, middle);
    let first = there.start;
    if first == middle {
        return false;
    }
    if halved(there.sum) + halved(back.sum) < 0 {
        copy_numbers(work, first, row - first, refutation, HEAD_SIZE);
        write_head(refutation, 2, middle - first, row - middle);
        return true;
    }
    false
}
