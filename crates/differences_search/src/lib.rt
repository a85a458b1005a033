// Whether a list of differences is refuted: rows are made until one is the same as the one before it, which is a
// potential, or a walk read back from them shows a closed walk of negative sum. That is tried after few rounds, after
// some more, and at the latest after as many rounds as there are variables.

#![tactic(auto)]

ghost use Rattle.std.specs.Prelude.{◌≤◌};
ghost use Rattle.differences_walk.specs.Refuted.{RefuteReady, BackRefuted};
ghost use Rattle.differences_search.specs.Double.{DoubleReady, Doubled};
ghost use Rattle.differences_search.specs.Searched.{SearchReady, PlainSearched};

use decide_buffers::clear;
use differences_rows::layout::walk_at;
use differences_rows::next_plain_row;
use differences_walk::refuted_back;

// It is tried first after so many rounds, and then after so many times the rounds.
const FIRST: usize = 8;

const LATER: usize = 4;

// The round after which it is tried next, n at the latest.
fn next_due(k: usize, due: usize, n: usize) -> usize
    requires { due ≤ n }
    ensures { result ≤ n }
{
    if k < due {
        return due;
    }
    k.saturating_mul(LATER).min(n)
}

// Twice each number of the row at a place, at another place.
fn double_row(work: &mut [i64], from: usize, to: usize, n: usize)
    requires { DoubleReady from to n work.old }
    ensures { Doubled from to n work.old work.new n }
{
    for i in 0..n {
        let z = work[from + i];
        work[to + i] = z + z;
    }
}

// Whether the list is refuted after k rounds, of which the last changed the entry of v, if that is due.
fn refuted_when_due(
    list: &[i32],
    n: usize,
    k: usize,
    v: usize,
    due: usize,
    refutation: &mut [u32],
    work: &mut [i64],
) -> bool
    requires { RefuteReady n list.now k v refutation.old work.old × (due ≤ n) }
    ensures { BackRefuted n list.now k refutation.old work.old refutation.new work.new result }
{
    if k < due {
        return false;
    }
    refuted_back(list, n, k, v, refutation, work)
}

// Whether the list is refuted. If it is, the refutation is written; else a number of each variable, twice its potential,
// stands behind the rows.
pub fn refuted_differences(list: &[i32], n: usize, refutation: &mut [u32], work: &mut [i64]) -> bool
    requires { SearchReady n list.now refutation.old work.old }
    ensures { PlainSearched n list.now refutation.old work.old refutation.new work.new result }
{
    if n == 0 {
        return false;
    }
    clear(work, n);
    let mut due = FIRST.min(n);
    for k in 0..n {
        let from = k * n;
        let v = next_plain_row(list, n, work, from);
        if n <= v {
            double_row(work, from, walk_at(n), n);
            return false;
        }
        let rounds = k + 1;
        if refuted_when_due(list, n, rounds, v, due, refutation, work) {
            return true;
        }
        due = next_due(rounds, due, n);
    }
    // never: a walk of as many steps as there are variables refutes the list
    true
}
