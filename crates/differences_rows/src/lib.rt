// The rows of the engine for differences, with a number for each variable: row 0 is 0 everywhere, and each other one is
// made of the one before by a round over the lines. Row k has the least sums of the walks of at most k steps, from
// anywhere.

#![tactic(auto)]

pub mod layout;

ghost use Rattle.std.specs.Prelude.{◌≡◌, [], ◌∷◌, ◌*◌, ◌<◌, length, take};
ghost use Rattle.integers.specs.Lowest.{first_failing_lem};
ghost use Rattle.lines.specs.Line.{line_at, line_count};
ghost use Rattle.theory_differences.specs.Plain.{plain_step_lem};
ghost use Rattle.decide_rows.specs.Relax.{relaxed_by};
ghost use Rattle.decide_rows.specs.Next.{same_at, with_next};
ghost use Rattle.differences_lines.specs.PlainList.{plain_of};
ghost use Rattle.differences_rows.specs.Round.{RoundReady, NextReady, NextDone};

use decide_rows::{copy_row, relax_at};
use differences_lines::plain_step;
use lines::limits::LINE_SIZE;

// The step of line number k, from the old row to the new row behind it.
fn relax_line(list: &[i32], n: usize, rows: &mut [i64], k: usize)
    requires { RoundReady n list.now rows.old × (k < line_count list.now) }
    ensures { rows.new ≡ relaxed_by n rows.old (plain_step_lem (line_at list.now k) ∷ []) }
{
    let step = plain_step(list, k);
    relax_at(rows, n, step.from, step.to, step.weight);
}

// One round: the old row stands first; the new row comes behind it.
#[tactic(auto, using(crate::specs::Round::gone_start, crate::specs::Round::gone_ready, crate::specs::Round::twice_ready))]
fn relax_lines(list: &[i32], n: usize, rows: &mut [i64])
    requires { RoundReady n list.now rows.old }
    ensures { rows.new ≡ with_next (plain_of list.now) (take n rows.old) }
{
    copy_row(rows, 0, n, n);
    let count = list.len() / LINE_SIZE;
    for k in 0..count {
        relax_line(list, n, rows, k);
    }
}

// The first place at which two rows one behind the other differ, or their size.
#[tactic(auto, using(integers::proofs::Searching::searching))]
fn first_changed(rows: &[i64], size: usize) -> usize
    requires { length rows.now ≡ 2 * size }
    ensures { result ≡ first_failing_lem size (same_at size rows.now) }
{
    for i in 0..size {
        if rows[i] != rows[size + i] {
            return i;
        }
    }
    size
}

// The row behind the row at `from`, and the first variable whose entry differs in it, or n.
pub fn next_plain_row(list: &[i32], n: usize, work: &mut [i64], from: usize) -> usize
    requires { NextReady n list.now work.old from }
    ensures { NextDone n (plain_of list.now) work.old from work.new result }
{
    let to = from + 2 * n;
    relax_lines(list, n, &mut work[from..to]);
    first_changed(&work[from..to], n)
}
