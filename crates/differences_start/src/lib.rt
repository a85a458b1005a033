// How the table of distances between variables begins, at the front of the work area; row v has the entries to v. An
// entry is made on numbers of the variables, twice their potentials, which make it no less than 0.

#![tactic(auto)]

ghost use Rattle.std.specs.Prelude.{◌<◌};
ghost use Rattle.lines.specs.Line.{line_count};
ghost use Rattle.differences_start.specs.Start.{DiagonalReady, Diagonal, StartReady, PutReady, LinePut, LinesPut, Started};

use differences_lines::plain_step;
use differences_rows::layout::walk_at;
use engine_closed_walk::fill;
use engine_reduced_table::FAR;
use lines::limits::LINE_SIZE;

// 0 from each variable to itself.
#[tactic(auto, using(differences_closing::specs::Entries::row_end))]
fn put_diagonal(work: &mut [i64], n: usize)
    requires { DiagonalReady n work.old }
    ensures { Diagonal n work.old work.new n }
{
    for i in 0..n {
        let at = i * n;
        work[at + i] = 0;
    }
}

// The entry of line number k, if it is lower: twice its weight, and the number of its start less that of its end.
fn put_line(list: &[i32], n: usize, work: &mut [i64], k: usize)
    requires { PutReady n list.now work.old × (k < line_count list.now) }
    ensures { LinePut n list.now k work.old work.new }
{
    let step = plain_step(list, k);
    let points = walk_at(n);
    let from = step.from;
    let to = step.to;
    let weight = step.weight;
    let own = work[points + from];
    let other = work[points + to];
    let z = weight + weight + own - other;
    let at = to * n + from;
    let old = work[at];
    if z < old {
        work[at] = z;
    }
}

// The entries of all lines.
fn put_lines(list: &[i32], n: usize, work: &mut [i64])
    requires { PutReady n list.now work.old }
    ensures { LinesPut n list.now work.old work.new (line_count list.now) }
{
    let count = list.len() / LINE_SIZE;
    for k in 0..count {
        put_line(list, n, work, k);
    }
}

// The table as it begins: 0 on the diagonal, the entries of single lines, and FAR elsewhere.
pub fn start_table(list: &[i32], n: usize, work: &mut [i64])
    requires { StartReady n list.now work.old }
    ensures { Started n list.now work.old work.new }
{
    fill(work, 0, n * n, FAR);
    put_diagonal(work, n);
    put_lines(list, n, work);
}
