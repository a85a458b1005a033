// What deciding writes on a yes, from the table of distances: the model, the bounds and the groups.

#![tactic(auto)]

ghost use Rattle.std.specs.Prelude.{◌≡◌, ◌++◌, ◌*◌, drop};
ghost use Rattle.integers.specs.Sequence.{tabulate};
ghost use Rattle.theory_bounds.specs.Table.{table_model};
ghost use Rattle.theory_bounds.specs.Answers.{bound_at, group_at_lem};
ghost use Rattle.decide_stored_table.specs.Table.{table_of};
ghost use Rattle.decide_yes.specs.Ready.{AnswersReady};

use decide_bounds_groups::{write_bounds, write_groups};
use decide_model::write_model;

// The three answers, each at the front of its list.
pub fn write_answers(
    table: &[i64],
    n: usize,
    model: &mut [i32],
    bounds: &mut [i64],
    groups: &mut [u32],
)
    requires { AnswersReady n table.now model.old bounds.old groups.old }
    ensures { (model.new ≡ tabulate n (table_model n (table_of (2 * n) table.now)) ++ drop n model.old)
        × (bounds.new ≡ tabulate (2 * n) (bound_at (table_of (2 * n) table.now)) ++ drop (2 * n) bounds.old)
        × (groups.new ≡ tabulate (2 * n) (group_at_lem (table_of (2 * n) table.now)) ++ drop (2 * n) groups.old) }
{
    write_model(table, n, model);
    write_bounds(table, n, bounds);
    write_groups(table, n, bounds, groups);
}
