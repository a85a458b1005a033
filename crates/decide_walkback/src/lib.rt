// A walk read back from the rows of a source: from the walk's end, one row at a time.

#![tactic(auto)]

ghost use Rattle.std.specs.Prelude.{◌≡◌, ◌*◌, ◌<◌, length};
ghost use Rattle.integers.specs.Integer.{Within};
ghost use Rattle.lines.specs.Limits.{max_variables};
ghost use Rattle.lines.specs.Valid.{LinesOk};
ghost use Rattle.steps.specs.Step.{max_weight, step_numbered_lem};
ghost use Rattle.decide_walkback.specs.Makes.{entry, Near, step_makes_lem, makes_value, start_of, OldRow, SearchOk, IsMaker};
ghost use Rattle.decide_walkback.specs.Move.{MoveOk, Moved};
ghost use Rattle.decide_walkback.specs.WalkBack.{RowsStand, Walked};

use decide_rows::NO_WALK;
use lines::limits::LINE_SIZE;
use steps::{Step, step_numbered};

// Whether a step makes the value z at v from the old row. To no walk nothing is added.
pub fn step_makes(old: &[i64], t: Step, v: usize, z: i64) -> bool
    requires { (t.from < length old.now) × Near (entry old.now t.from) × Within max_weight t.weight }
    ensures { result ≡ step_makes_lem old.now v z t }
{
    let from = t.from;
    if t.to != v {
        return false;
    }
    let there = old[from];
    if there == NO_WALK {
        return false;
    }
    there + t.weight == z
}

// Whether there is a step with this number and it makes the value z at v from the old row.
fn makes(list: &[i32], old: &[i64], v: usize, z: i64, number: usize) -> bool
    requires { OldRow list.now old.now }
    ensures { result ≡ makes_value list.now old.now v z number }
{
    match step_numbered(list, number) {
        Some(t) => step_makes(old, t, v, z),
        None => false,
    }
}

// The point where the step with a number starts.
fn start_of(list: &[i32], number: usize) -> usize
    requires { LinesOk max_variables list.now }
    ensures { result ≡ start_of (step_numbered_lem list.now number) }
{
    match step_numbered(list, number) {
        Some(t) => t.from,
        None => 0,
    }
}

// The number of a step that makes the value z at v from the old row: the search goes over lines and, in each, over its
// two sides, and leaves both loops by label with the number.
fn find_step(list: &[i32], old: &[i64], v: usize, z: i64) -> usize
    requires { SearchOk list.now old.now v z }
    ensures { IsMaker list.now old.now v z result }
{
    let count = list.len() / LINE_SIZE;
    let mut line = 0;
    let found = 'search: loop {
        // never: some step makes the value
        if count <= line {
            break 0;
        }
        for side in 0..2 {
            let number = 2 * line + side;
            if makes(list, old, v, z, number) {
                break 'search number;
            }
        }
        line += 1;
    };
    found
}

// One row back from the row behind the one at `before`: the value at p stood there already, or a step makes it, whose
// number goes to the slot and is answered.
fn move_back(
    list: &[i32],
    n: usize,
    work: &mut [i64],
    before: usize,
    p: usize,
    slot: usize,
) -> Option<usize>
    requires { MoveOk n list.now work.old before p slot }
    ensures { Moved (2 * n) list.now work.old before p slot work.new result }
{
    let row = before + 2 * n;
    let here = work[row + p];
    let there = work[before + p];
    if there == here {
        return None;
    }
    let number = find_step(list, &work[before..row], p, here);
    work[slot] = number as i64;
    Some(number)
}

// Reads back a walk from u to v of at most top steps, whose sum is the entry at v of row top, from rows 0 to top of u at
// the front of the work area. The way goes from v back to u, so the steps' numbers are written from at + top down: the
// r numbers that it answers end there, in the walk's order. (u is there for the promise alone: the rows know it.)
pub fn walk_back(
    list: &[i32],
    n: usize,
    u: usize,
    work: &mut [i64],
    top: usize,
    v: usize,
    at: usize,
) -> usize
    requires { RowsStand n list.now u work.old top v at }
    ensures { Walked n list.now u work.old top v at work.new result }
{
    let size = 2 * n;
    let mut slot = at + top;
    let mut point = v;
    for k in (0..top).rev() {
        if let Some(number) = move_back(list, n, work, k * size, point, slot - 1) {
            slot -= 1;
            point = start_of(list, number);
        }
    }
    at + top - slot
}
