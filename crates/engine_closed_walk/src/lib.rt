// A refutation of kind 1 at once: passes over the packed steps leave at each point that they lower the step (the field's
// term: the point's predecessor), and after each pass the marks are followed back from the last point lowered. What they
// lead round is checked, so that nothing is asked of the passes; where it is no negative closed walk, nothing is written.

#![tactic(auto)]

ghost use Rattle.std.specs.Prelude.{◌≡◌, true, ◌+◌, ◌*◌, ◌<◌, ◌≤◌, length};
ghost use Rattle.theory_walks.specs.Negative.{no_negative};
ghost use Rattle.engine_packed_steps.specs.Steps.{steps_in};
ghost use Rattle.engine_packed_steps.specs.Layout.{row_at};
ghost use Rattle.engine_closed_walk.specs.Filled.{Filled};
ghost use Rattle.engine_closed_walk.specs.Passes.{SmallRow, MarkReady, PassReady, Passed};
ghost use Rattle.engine_closed_walk.specs.Potential.{PotentialReady};
ghost use Rattle.engine_closed_walk.specs.Back.{BackReady, EndsAt};
ghost use Rattle.engine_closed_walk.specs.Follow.{FollowReady, FollowedBack};
ghost use Rattle.engine_closed_walk.specs.AtOnce.{FromReady, AtOnceFrom, AtOnceReady, AtOnce};

use check_refutation::HEAD_SIZE;
use decide_written_walks::{copy_numbers, write_head};
use engine_packed_steps::layout::row_at;
use engine_packed_steps::{LIGHT, from_in, number_in, read_step};
use lines::limits::LINE_SIZE;
use steps::step_numbered;

// Numbers of a row stay above this.
pub const LOWEST_MARK: i64 = -1_000_000_000_000_000;
// Each step in one number is below this.
pub const ALL: i64 = 9223372036854775807;

// A walk followed back: the place of its first step number in the work area, and its sum.
#[derive(Clone, Copy)]
pub struct Followed {
    pub start: usize,
    pub sum: i64,
}

// A value to each number from a place on, before another.
pub fn fill(work: &mut [i64], from: usize, end: usize, value: i64)
    requires { (from ≤ end) × (end ≤ length work.old) }
    ensures { Filled from end value end work.old work.new }
{
    for i in from..end {
        work[i] = value;
    }
}

// Step i in a pass over a row, whose marks stand behind it: the point that it lowers, or else the last one before.
fn mark_at_step(work: &mut [i64], i: usize, row: usize, size: usize, last: usize) -> usize
    requires { MarkReady i row size last work.old }
    ensures { Passed row size work.old work.new result }
{
    let step = read_step(work, i);
    let from = step.from;
    let to = step.to;
    let sum = work[row + from] + step.weight;
    let entry = work[row + to];
    if sum < entry {
        if LOWEST_MARK < sum {
            let mark = work[i];
            work[row + to] = sum;
            work[row + size + to] = mark;
            return to;
        }
    }
    last
}

// A pass over the steps below `most`, from the first on: the last point that it lowered, or the number of points.
pub fn mark_pass(work: &mut [i64], count: usize, row: usize, size: usize, most: i64) -> usize
    requires { PassReady count row size work.old }
    ensures { Passed row size work.old work.new result }
{
    let mut last = size;
    for i in 0..count {
        if work[i] < most {
            last = mark_at_step(work, i, row, size, last);
        }
    }
    last
}

// The same from the last step back.
pub fn mark_pass_back(work: &mut [i64], count: usize, row: usize, size: usize, most: i64) -> usize
    requires { PassReady count row size work.old }
    ensures { Passed row size work.old work.new result }
{
    let mut last = size;
    for i in (0..count).rev() {
        if work[i] < most {
            last = mark_at_step(work, i, row, size, last);
        }
    }
    last
}

// Passes go up and down in turn.
pub fn mark_turn(
    work: &mut [i64],
    count: usize,
    row: usize,
    size: usize,
    turn: usize,
    most: i64,
) -> usize
    requires { PassReady count row size work.old }
    ensures { Passed row size work.old work.new result }
{
    if turn % 2 == 0 {
        return mark_pass(work, count, row, size, most);
    }
    mark_pass_back(work, count, row, size, most)
}

// Whether no step lowers the row.
pub fn is_potential(work: &[i64], count: usize, row: usize, size: usize) -> bool
    requires { PotentialReady count row size work.now }
    ensures { result ≡ true → no_negative (steps_in count work.now) size ≡ true }
{
    for i in 0..count {
        let step = read_step(work, i);
        let from = step.from;
        let to = step.to;
        let sum = work[row + from] + step.weight;
        let entry = work[row + to];
        if sum < entry {
            return false;
        }
    }
    true
}

// The point to which as many marks as points lead back from p, or the number of points: it is on a circle of marks.
fn far_back(work: &[i64], marks: usize, size: usize, p: usize) -> usize
    requires { (marks + size ≤ length work.now) × (p < size) }
    ensures { result ≤ size }
{
    let mut at = p;
    for k in 0..size {
        let mark = work[marks + at];
        if mark < 0 {
            return size;
        }
        at = from_in(mark);
        if size <= at {
            return size;
        }
    }
    at
}

// The number in the list of the step that is the mark at a point, if the list's step ends there, or else the number
// behind the last.
fn number_back(list: &[i32], n: usize, work: &[i64], marks: usize, at: usize) -> usize
    requires { BackReady n list.now marks at work.now }
    ensures { EndsAt list.now at result }
{
    let count = 2 * (list.len() / LINE_SIZE);
    let mark = work[marks + at];
    if mark < 0 {
        return count;
    }
    let number = number_in(mark);
    if let Some(t) = step_numbered(list, number) {
        if t.to == at {
            return number;
        }
    }
    count
}

// The walk from u to v along which the marks lead back, of at most as many steps as points: their numbers stand before
// `end`. Where u is not reached, `end` itself is answered.
pub fn follow_back(
    list: &[i32],
    n: usize,
    work: &mut [i64],
    u: usize,
    v: usize,
    end: usize,
) -> Followed
    requires { FollowReady n list.now work.old v end }
    ensures { FollowedBack n list.now work.old u v end work.new result }
{
    let marks = row_at(n) + 2 * n;
    let lowest = end - 2 * n;
    let mut at = v;
    let mut sum: i64 = 0;
    for slot in (lowest..end).rev() {
        let number = number_back(list, n, work, marks, at);
        let Some(t) = step_numbered(list, number) else {
            return Followed { start: end, sum: 0 };
        };
        work[slot] = number as i64;
        sum += t.weight;
        at = t.from;
        if at == u {
            return Followed { start: slot, sum };
        }
    }
    Followed { start: end, sum: 0 }
}

// Whether the marks lead from p back to a closed walk of negative sum: then its refutation is written.
fn refuted_from(list: &[i32], n: usize, p: usize, refutation: &mut [u32], work: &mut [i64]) -> bool
    requires { FromReady n list.now refutation.old work.old × (p < 2 * n) }
    ensures { AtOnceFrom n list.now refutation.old work.old refutation.new work.new result }
{
    let size = 2 * n;
    let row = row_at(n);
    let q = far_back(work, row + size, size, p);
    if size <= q {
        return false;
    }
    let walk = follow_back(list, n, work, q, q, row);
    let start = walk.start;
    if start == row {
        return false;
    }
    if walk.sum < 0 {
        copy_numbers(work, start, row - start, refutation, HEAD_SIZE);
        write_head(refutation, 1, row - start, 0);
        return true;
    }
    false
}

// Whether the list is refuted so, after any of at most one pass more than there are points, over the steps below `most`
// and from the row as it stands. They end where one changes nothing.
fn refuted_by_passes(
    list: &[i32],
    n: usize,
    count: usize,
    refutation: &mut [u32],
    work: &mut [i64],
    most: i64,
) -> bool
    requires { AtOnceReady n list.now count refutation.old work.old × SmallRow (row_at n) (2 * n) work.old }
    ensures { AtOnce n list.now refutation.old work.old refutation.new work.new result }
{
    let size = 2 * n;
    let row = row_at(n);
    for turn in 0..=size {
        let p = mark_turn(work, count, row, size, turn, most);
        if size <= p {
            return false;
        }
        if refuted_from(list, n, p, refutation, work) {
            return true;
        }
    }
    false
}

// Whether the list is refuted so from 0 everywhere: first over the steps of negative weight, which a pass tells apart by
// one comparison each, then over all. Where a pass over all changes nothing, no closed walk is negative.
pub fn refuted_at_once(
    list: &[i32],
    n: usize,
    count: usize,
    refutation: &mut [u32],
    work: &mut [i64],
) -> bool
    requires { AtOnceReady n list.now count refutation.old work.old }
    ensures { AtOnce n list.now refutation.old work.old refutation.new work.new result }
{
    let size = 2 * n;
    let row = row_at(n);
    let marks = row + size;
    fill(work, row, marks, 0);
    fill(work, marks, marks + size, -1);
    if refuted_by_passes(list, n, count, refutation, work, LIGHT) {
        return true;
    }
    refuted_by_passes(list, n, count, refutation, work, ALL)
}
