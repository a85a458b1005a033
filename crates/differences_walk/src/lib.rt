// A refutation of kind 1 from the rows of the engine for differences. An entry that the last round changed is made by a
// walk of as many steps as there were rounds. It is read back, one row at a time; where it comes to a variable twice, the
// part between is a closed walk of negative sum.

#![tactic(auto)]

ghost use Rattle.std.specs.Prelude.{◌≡◌, ◌<◌, length};
ghost use Rattle.lines.specs.Line.{line_count};
ghost use Rattle.differences_walk.specs.Makes.{makes_at, OldRow, IsMade, FindReady};
ghost use Rattle.differences_walk.specs.Back.{BackReady, SteppedBack};
ghost use Rattle.differences_walk.specs.Reading.{WalkReady, Walked};
ghost use Rattle.differences_walk.specs.Again.{NextSame, MetAgain};
ghost use Rattle.differences_walk.specs.Refuted.{RefuteReady, BackRefuted};

use check_refutation::HEAD_SIZE;
use decide_walkback::step_makes;
use decide_written_walks::{copy_numbers, write_head};
use differences_lines::{plain_number, plain_step};
use differences_rows::layout::{points_at, walk_at};
use lines::limits::LINE_SIZE;

// Two places of a walk.
#[derive(Clone, Copy)]
pub struct Part {
    pub first: usize,
    pub last: usize,
}

// Whether the step of line number k makes the value z at v from the old row.
fn makes(list: &[i32], old: &[i64], v: usize, z: i64, k: usize) -> bool
    requires { OldRow list.now old.now × (k < line_count list.now) }
    ensures { result ≡ makes_at list.now old.now v z k }
{
    step_makes(old, plain_step(list, k), v, z)
}

// The number of a line whose step makes the value z at v from the old row.
fn find_line(list: &[i32], old: &[i64], v: usize, z: i64) -> usize
    requires { FindReady list.now old.now v z }
    ensures { IsMade list.now old.now v z result }
{
    let count = list.len() / LINE_SIZE;
    for k in 0..count {
        if makes(list, old, v, z, k) {
            return k;
        }
    }
    // never: some line makes the value
    0
}

// One row back from the entry of p in the row behind the one at `before`: the number of a step that makes it goes to the
// slot, and the variable where that step begins to the place. That variable.
fn step_back(
    list: &[i32],
    n: usize,
    work: &mut [i64],
    before: usize,
    p: usize,
    slot: usize,
    place: usize,
) -> usize
    requires { BackReady n list.now work.old before p slot place }
    ensures { SteppedBack n list.now work.old before p slot place work.new result }
{
    let row = before + n;
    let z = work[row + p];
    let k = find_line(list, &work[before..row], p, z);
    work[slot] = plain_number(list, k) as i64;
    let step = plain_step(list, k);
    work[place] = step.from as i64;
    step.from
}

// The walk that makes the entry of v in row top, of top steps: their numbers stand behind the rows, and behind these the
// variables that it comes to, from the first on.
fn walk_back(list: &[i32], n: usize, work: &mut [i64], top: usize, v: usize)
    requires { WalkReady n list.now work.old top v }
    ensures { Walked n list.now work.old top v work.new }
{
    let walk = walk_at(n);
    let points = points_at(n);
    work[points + top] = v as i64;
    let mut p = v;
    for k in (0..top).rev() {
        p = step_back(list, n, work, k * n, p, walk + k, points + k);
    }
}

// The next place behind i at which the number of i stands again, or how many numbers there are.
#[tactic(auto, using(crate::specs::Again::between_start, crate::specs::Again::between_more))]
fn next_same(numbers: &[i64], i: usize) -> usize
    requires { i < length numbers.now }
    ensures { NextSame numbers.now i result }
{
    for j in i + 1..numbers.len() {
        if numbers[j] == numbers[i] {
            return j;
        }
    }
    numbers.len()
}

// Two places at which one number stands; or, where there are none, both are the count of the numbers.
#[tactic(auto, using(crate::specs::Again::twice_more))]
fn met_again(numbers: &[i64]) -> Part
    ensures { MetAgain numbers.now result }
{
    let count = numbers.len();
    for i in 0..count {
        let j = next_same(numbers, i);
        if j < count {
            return Part { first: i, last: j };
        }
    }
    Part {
        first: count,
        last: count,
    }
}

// Whether the walk that makes the entry of v in row top comes to a variable twice: then the refutation is written. With as
// many steps as there are variables it does.
pub fn refuted_back(
    list: &[i32],
    n: usize,
    top: usize,
    v: usize,
    refutation: &mut [u32],
    work: &mut [i64],
) -> bool
    requires { RefuteReady n list.now top v refutation.old work.old }
    ensures { BackRefuted n list.now top refutation.old work.old refutation.new work.new result }
{
    walk_back(list, n, work, top, v);
    let points = points_at(n);
    let part = met_again(&work[points..points + top + 1]);
    let first = part.first;
    let last = part.last;
    if top < last {
        return false;
    }
    copy_numbers(
        work,
        walk_at(n) + first,
        last - first,
        refutation,
        HEAD_SIZE,
    );
    write_head(refutation, 1, last - first, 0);
    true
}
