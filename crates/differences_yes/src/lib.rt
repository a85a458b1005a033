// What deciding a list of differences writes on a yes, off the table of the distances between its variables: the model, the
// bounds, of which there are none, and the groups.

#![tactic(auto)]

ghost use Rattle.std.specs.Prelude.{◌≡◌, ◌++◌, ◌*◌, ◌<◌, ◌≤◌, length, drop};
ghost use Rattle.integers.specs.Sequence.{tabulate};
ghost use Rattle.theory_bounds.specs.Table.{table_model};
ghost use Rattle.theory_bounds.specs.Answers.{group_at_lem};
ghost use Rattle.decide_buffers.specs.Room.{model_room_lem, bounds_room_lem, groups_room_lem};
ghost use Rattle.theory_differences.specs.Distances.{doubled};
ghost use Rattle.theory_differences.specs.Doubled.{absent_at, plain_same, plain_group};
ghost use Rattle.decide_stored_table.specs.Table.{table_of};
ghost use Rattle.differences_model.specs.Limit.{PlainTable};
ghost use Rattle.differences_yes.specs.Ready.{PlainAnswersReady};

use decide_bounds_groups::ABSENT_LEAST;
use decide_rows::NO_WALK;
use differences_model::{distance_at, write_plain_model};

// All variables of a solution may be shifted by one number: so none has a least or a greatest value.
fn write_no_bounds(n: usize, bounds: &mut [i64])
    requires { bounds_room_lem n ≤ length bounds.old }
    ensures { bounds.new ≡ tabulate (2 * n) absent_at ++ drop (bounds_room_lem n) bounds.old }
{
    for x in 0..n {
        bounds[2 * x] = ABSENT_LEAST;
        bounds[2 * x + 1] = NO_WALK;
    }
}

// Whether x and r have the same value in every solution. The row of x is read first: its entries stand side by side.
fn same_value(table: &[i64], n: usize, x: usize, r: usize) -> bool
    requires { PlainTable n table.now × (x < n) × (r < n) }
    ensures { result ≡ plain_same (table_of n table.now) x r }
{
    if 0 < distance_at(table, n, r, x) {
        return false;
    }
    distance_at(table, n, x, r) <= 0
}

// The lowest variable that has the value of x in every solution: x itself at the latest.
#[tactic(auto, using(integers::proofs::Searching::searching))]
fn group_of(table: &[i64], n: usize, x: usize) -> usize
    requires { PlainTable n table.now × (x < n) }
    ensures { result ≡ plain_group (table_of n table.now) x }
{
    for r in 0..x {
        if same_value(table, n, x, r) {
            return r;
        }
    }
    x
}

// The groups of all n variables: of each the lowest variable with its value, and plus.
fn write_plain_groups(table: &[i64], n: usize, groups: &mut [u32])
    requires { PlainTable n table.now × (groups_room_lem n ≤ length groups.old) }
    ensures { groups.new ≡ tabulate (2 * n) (group_at_lem (doubled (table_of n table.now))) ++ drop (groups_room_lem n) groups.old }
{
    for x in 0..n {
        let lowest = group_of(table, n, x);
        groups[2 * x] = lowest as u32;
        groups[2 * x + 1] = 0;
    }
}

// The three answers, each at the front of its list.
pub fn write_plain_answers(
    table: &[i64],
    n: usize,
    model: &mut [i32],
    bounds: &mut [i64],
    groups: &mut [u32],
)
    requires { PlainAnswersReady n table.now model.old bounds.old groups.old }
    ensures { (model.new ≡ tabulate n (table_model n (doubled (table_of n table.now))) ++ drop (model_room_lem n) model.old)
        × (bounds.new ≡ tabulate (2 * n) absent_at ++ drop (bounds_room_lem n) bounds.old)
        × (groups.new ≡ tabulate (2 * n) (group_at_lem (doubled (table_of n table.now))) ++ drop (groups_room_lem n) groups.old) }
{
    write_plain_model(table, n, model);
    write_no_bounds(n, bounds);
    write_plain_groups(table, n, groups);
}
