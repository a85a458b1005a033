// Whether the table is settled: the diagonal is 0, and no step lowers an entry. Then it holds the distances, each turned
// back by the numbers of its two points.

#![tactic(auto)]

ghost use Rattle.std.specs.Prelude.{◌≡◌, ◌<◌};
ghost use Rattle.decide_rows.specs.Stored.{stored};
ghost use Rattle.engine_settled_table.specs.Settled.{SumReady, SettledIf, StepIf, DiagonalIf, StepsIf, TableIf};
ghost use Rattle.engine_settled_table.specs.Out.{out_of, OutReady};
ghost use Rattle.engine_reduced_table.specs.Reduced.{Reduced};

use decide_rows::NO_WALK;
use engine_reduced_table::{FAR, SPARE, entry_at, negative_part, reduced_step};
use integers::halved;

// Whether row s is nowhere above row u and the weight r.
fn row_settled(
    work: &[i64],
    count: usize,
    pot: usize,
    size: usize,
    s: usize,
    u: usize,
    r: i64,
) -> bool
    requires { SumReady count pot size s u r work.now }
    ensures { SettledIf pot size s u r work.now result }
{
    let own = pot + 2 * size + s * (size + SPARE);
    let other = pot + 2 * size + u * (size + SPARE);
    let mut sum: i64 = 0;
    for t in 0..size {
        let reach = work[other + t] + r;
        let old = work[own + t];
        let less = negative_part(reach - old);
        sum += less;
    }
    sum == 0
}

// Whether step i lowers no entry.
fn step_settled(work: &[i64], count: usize, pot: usize, size: usize, i: usize) -> bool
    requires { Reduced count pot size work.now × (i < count) }
    ensures { StepIf count pot size work.now i result }
{
    if let Some(s) = reduced_step(work, count, pot, size, i) {
        return row_settled(work, count, pot, size, s.from, s.to, s.weight);
    }
    false
}

// Whether the diagonal is 0.
fn diagonal_settled(work: &[i64], count: usize, pot: usize, size: usize) -> bool
    requires { Reduced count pot size work.now }
    ensures { DiagonalIf pot size work.now result }
{
    for t in 0..size {
        let own = entry_at(work, count, pot, size, t, t);
        let above = own > 0;
        if above {
            return false;
        }
    }
    true
}

// Whether no step lowers an entry.
fn steps_settled(work: &[i64], count: usize, pot: usize, size: usize) -> bool
    requires { Reduced count pot size work.now }
    ensures { StepsIf count pot size work.now result }
{
    for i in 0..count {
        let settled = step_settled(work, count, pot, size, i);
        if !settled {
            return false;
        }
    }
    true
}

// Whether the table is settled: the diagonal is 0, and no step lowers an entry.
pub fn table_settled(work: &[i64], count: usize, pot: usize, size: usize) -> bool
    requires { Reduced count pot size work.now }
    ensures { TableIf count pot size work.now result }
{
    if diagonal_settled(work, count, pot, size) {
        return steps_settled(work, count, pot, size);
    }
    false
}

// An entry as a distance: turned back by the numbers of its start and its end, and halved.
pub fn distance_of(z: i64, own: i64, other: i64) -> i64
    requires { OutReady z own other }
    ensures { result ≡ stored (out_of own other z) }
{
    if z < FAR {
        return halved(z + other - own);
    }
    NO_WALK
}
