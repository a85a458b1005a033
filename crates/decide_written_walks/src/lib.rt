// The refutation that deciding hands over: its head, and the step numbers of its walks.

#![tactic(auto)]

ghost use Rattle.std.specs.Prelude.{◌≡◌, ◌∷◌, ◌+◌, ◌*◌, ◌<◌, ◌≤◌, length, drop};
ghost use Rattle.lines.specs.Limits.{work_lines};
ghost use Rattle.check_refutation.specs.Progress.{head_size};
ghost use Rattle.decide_written_walks.specs.Copy.{StepNumbers, copied_to};
ghost use Rattle.decide_written_walks.specs.Shortest.{WalkReady, WalkFound};
ghost use Rattle.decide_written_walks.specs.Written.{WriteReady, WalkWritten};
ghost use Rattle.decide_written_walks.specs.Refutation.{ClosedReady, HalvesReady, RefutationWritten};

use check_refutation::{CLOSED, FALSE_LINE, HEAD_SIZE, THERE_AND_BACK};
use decide_rows::rows;
use decide_walkback::walk_back;
use steps::opposite_of;

// The step numbers that stand in the work area, from a place on, to a place of the refutation.
pub fn copy_numbers(work: &[i64], from: usize, count: usize, refutation: &mut [u32], to: usize)
    requires { (from + count ≤ length work.now) × (to + count ≤ length refutation.old) × StepNumbers work.now from count }
    ensures { refutation.new ≡ copied_to refutation.old to work.now from count }
{
    for i in 0..count {
        refutation[to + i] = work[from + i] as u32;
    }
}

// The kind and the two counts.
pub fn write_head(refutation: &mut [u32], kind: u32, p: usize, q: usize)
    requires { (head_size ≤ length refutation.old) × (p < 2 * work_lines) × (q < 2 * work_lines) }
    ensures { refutation.new ≡ kind ∷ p ∷ q ∷ drop head_size refutation.old }
{
    refutation[0] = kind;
    refutation[1] = p as u32;
    refutation[2] = q as u32;
}

// The refutation of a false line.
pub fn write_false(refutation: &mut [u32], line: usize)
    requires { (head_size < length refutation.old) × (line < work_lines) }
    ensures { refutation.new ≡ 3 ∷ 1 ∷ 0 ∷ 2 * line ∷ drop (head_size + 1) refutation.old }
{
    write_head(refutation, FALSE_LINE as u32, 1, 0);
    refutation[HEAD_SIZE] = (2 * line) as u32;
}

// A walk of least sum from u to v, or, if u is v, one of negative sum that is as short as any: how many steps it has. Their
// numbers stand in the work area, the last of them before the place 2n behind the start of the walks' room.
fn shortest_walk(list: &[i32], n: usize, u: usize, v: usize, work: &mut [i64]) -> usize
    requires { WalkReady n list.now u v work.old }
    ensures { WalkFound n list.now u v work.old work.new result }
{
    let size = 2 * n;
    let top = rows(list, n, u, work);
    let place = (size + 1) * size + size * size + (size - top);
    walk_back(list, n, u, work, top, v, place)
}

// Writes the step numbers of such a walk from u to v into the refutation, from a place on: how many they are.
fn write_walk(
    list: &[i32],
    n: usize,
    u: usize,
    v: usize,
    refutation: &mut [u32],
    place: usize,
    work: &mut [i64],
) -> usize
    requires { WriteReady n list.now u v refutation.old place work.old }
    ensures { WalkWritten n list.now u v refutation.old place work.old refutation.new work.new result }
{
    let size = 2 * n;
    let count = shortest_walk(list, n, u, v, work);
    let from = (size + 1) * size + size * size + size - count;
    copy_numbers(work, from, count, refutation, place);
    count
}

// A refutation of kind 1: a closed walk from u, of negative sum.
pub fn write_closed(list: &[i32], n: usize, u: usize, refutation: &mut [u32], work: &mut [i64])
    requires { ClosedReady n list.now u refutation.old work.old }
    ensures { RefutationWritten n list.now 1 refutation.old work.old refutation.new work.new }
{
    let count = write_walk(list, n, u, u, refutation, HEAD_SIZE, work);
    write_head(refutation, CLOSED as u32, count, 0);
}

// A refutation of kind 2: a walk from p to its opposite, and one back.
pub fn write_halves(list: &[i32], n: usize, p: usize, refutation: &mut [u32], work: &mut [i64])
    requires { HalvesReady n list.now p refutation.old work.old }
    ensures { RefutationWritten n list.now 2 refutation.old work.old refutation.new work.new }
{
    let q = opposite_of(p);
    let first = write_walk(list, n, p, q, refutation, HEAD_SIZE, work);
    let second = write_walk(list, n, q, p, refutation, HEAD_SIZE + first, work);
    write_head(refutation, THERE_AND_BACK as u32, first, second);
}
