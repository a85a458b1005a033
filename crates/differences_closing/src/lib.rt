// A table of entries between variables, closed through one variable after the other (the field's term: the method of Floyd
// and Warshall). Row v has the entries to v. An entry is no less than 0: twice the sum of a walk, and the number of its
// start less that of its end; or FAR.

#![tactic(auto)]

ghost use Rattle.std.specs.Prelude.{◌<◌};
ghost use Rattle.differences_closing.specs.Entries.{Ranged};
ghost use Rattle.differences_closing.specs.Closed.{LowerReady, RowLowered, RowReady, RowThrough, RowsReady, RowsThrough, ThroughAll, Closed};

use engine_reduced_table::{FAR, negative_part};

// The entries of the row `to` lowered by those of the row `by` and the entry a between the two.
fn lower_row(table: &mut [i64], n: usize, to: usize, by: usize, a: i64)
    requires { LowerReady n to by a table.old }
    ensures { RowLowered n to by a table.old table.new }
{
    let own = to * n;
    let other = by * n;
    for u in 0..n {
        let sum = table[other + u] + a;
        let old = table[own + u];
        let less = negative_part(sum - old);
        table[own + u] = old + less;
    }
}

// The row of v lowered by walks through k, where there is an entry from k.
fn through_row(table: &mut [i64], n: usize, v: usize, k: usize)
    requires { RowReady n v k table.old }
    ensures { RowThrough n v k table.old table.new }
{
    let at = v * n + k;
    let a = table[at];
    if a < FAR {
        lower_row(table, n, v, k, a);
    }
}

// The rows from one on, before another, lowered by walks through k.
fn through_rows(table: &mut [i64], n: usize, k: usize, from: usize, end: usize)
    requires { RowsReady n k end table.old }
    ensures { RowsThrough n k from table.old table.new end }
{
    for v in from..end {
        through_row(table, n, v, k);
    }
}

// All rows lowered by walks through k. That of k itself is no higher: it is left out, so that the row that is read lies
// apart from the rows that are written, and the loop over a row is compiled to steps of several numbers.
fn through(table: &mut [i64], n: usize, k: usize)
    requires { Ranged n table.old × (k < n) }
    ensures { ThroughAll n k table.old table.new }
{
    through_rows(table, n, k, 0, k);
    through_rows(table, n, k, k + 1, n);
}

// The table closed through all variables.
pub fn close(table: &mut [i64], n: usize)
    requires { Ranged n table.old }
    ensures { Closed n table.old table.new n }
{
    for k in 0..n {
        through(table, n, k);
    }
}
