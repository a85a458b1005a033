// The table of distances of a list, made anew in place: from the start table, one line after the other.

#![tactic(auto)]

ghost use Rattle.std.specs.Prelude.{◌≡◌};
ghost use Rattle.lines.specs.Valid.{LinesOk};
ghost use Rattle.session_step.specs.Read.{SizedTable};
ghost use Rattle.session_table.specs.Anew.{anew_table};

use decide_table_by_rounds::start_table;
use lines::limits::LINE_SIZE;
use session_line::{both_stay, put_line};

// The table of all lines, or of those before the first that closes a walk of negative sum, whatever the table held before.
pub fn table_anew(list: &[i32], n: usize, table: &mut [i64])
    requires { SizedTable n table.old × LinesOk n list.now }
    ensures { table.new ≡ anew_table n list.now }
{
    start_table(table, 0, 2 * n);
    let count = list.len() / LINE_SIZE;
    for k in 0..count {
        if !both_stay(list, k, table, n) {
            return;
        }
        put_line(list, k, table, n);
    }
}
