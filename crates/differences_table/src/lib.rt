// The table of distances between variables, at the front of the work area; row v has the distances to v. It is made on
// numbers that potentials make no less than 0, closed, and in the end turned back.

#![tactic(auto)]

ghost use Rattle.std.specs.Prelude.{◌<◌};
ghost use Rattle.differences_table.specs.Finished.{FinishReady, RowFinished, Finished};
ghost use Rattle.differences_table.specs.Table.{TableReady, PlainTable};

use differences_closing::close;
use differences_rows::layout::walk_at;
use differences_start::start_table;
use engine_settled_table::distance_of;

// The entries of the row of v turned back to distances.
#[tactic(auto, using(differences_closing::specs::Entries::row_end))]
fn finish_row(work: &mut [i64], n: usize, v: usize)
    requires { FinishReady n work.old v × (v < n) }
    ensures { RowFinished n v work.old work.new n }
{
    let row = v * n;
    let points = walk_at(n);
    let other = work[points + v];
    for u in 0..n {
        let z = work[row + u];
        let own = work[points + u];
        work[row + u] = distance_of(z, own, other);
    }
}

// All rows.
fn finish(work: &mut [i64], n: usize)
    requires { FinishReady n work.old 0 }
    ensures { Finished n work.old work.new n }
{
    for v in 0..n {
        finish_row(work, n, v);
    }
}

// The distances between all variables. Behind the rows stands a number of each variable, twice its potential.
pub fn write_plain_table(list: &[i32], n: usize, work: &mut [i64])
    requires { TableReady n list.now work.old }
    ensures { PlainTable n list.now work.old work.new }
{
    start_table(list, n, work);
    close(&mut work[..n * n], n);
    finish(work, n);
}
