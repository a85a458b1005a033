// The model and the groups that are kept beside a table of distances, as numbers of 64 bits: whether they stay when a line
// is learnt, how they are read off the table anew, and how the outputs are handed out. Table and kept numbers may be any.

#![tactic(auto)]

ghost use Rattle.std.specs.Prelude.{◌≡◌, cond, ◌++◌, ℕ, ◌+◌, ◌*◌, ◌<◌, ◌≤◌, length, get_or, take, drop};
ghost use Rattle.integers.specs.Sequence.{tabulate};
ghost use Rattle.lines.specs.Limits.{max_variables};
ghost use Rattle.lines.specs.Line.{line_count, number};
ghost use Rattle.lines.specs.Valid.{LineWorks, LinesOk};
ghost use Rattle.steps.specs.Step.{step_numbered_lem};
ghost use Rattle.theory_bounds.specs.Answers.{bound_at, group_at_lem};
ghost use Rattle.decide_buffers.specs.Room.{model_room_lem, groups_room_lem};
ghost use Rattle.decide_stored_table.specs.Table.{by_rows, ShortTable};
ghost use Rattle.decide_model.specs.Values.{values_of};
ghost use Rattle.session_step.specs.Read.{small_table, SizedTable};
ghost use Rattle.session_state.specs.State.{kept_room_lem, widened};
ghost use Rattle.theory_kept.specs.Slack.{wide_step};
ghost use Rattle.session_kept.specs.Kept.{kept_after, value_at, keeps_model_lem, keeps_groups_lem, small_group_lem, group_number, GiveReady, Given};

use check_model::is_met;
use decide_bounds_groups::{ABSENT_LEAST, write_bounds, write_groups};
use decide_model::{small_value, write_values};
use decide_rows::NO_WALK;
use integers::between;
use lines::Line;
use lines::limits::MAX_VARIABLES;
use session_distances::first_beyond;
use session_learn::EQUAL_SLACK;
use session_questions::half_of;
use session_step::{MOST_POINTS, sum_along};
use steps::step_numbered;

// Copies the first numbers of a list to the front of the kept numbers.
fn keep<T: Copy + Into<i64>>(numbers: &[T], count: usize, kept: &mut [i64])
    requires { (count ≤ length numbers.now) × (count ≤ length kept.old) }
    ensures copied { (k : ℕ) (x : T) → k < count → T.converts (get_or numbers.now k x) (number kept.new k) }
    ensures rest { drop count kept.new ≡ drop count kept.old }
{
    for i in 0..count {
        kept[i] = numbers[i].into();
    }
}

// The model as it stays, or read off the table: at the front of the kept numbers.
fn renew_model(table: &[i64], n: usize, stays: bool, kept: &mut [i64])
    requires { ShortTable n table.now × (model_room_lem n ≤ length kept.old) }
    ensures { kept.new ≡ cond stays (take n kept.old) (values_of (by_rows (2 * n) table.now) n) ++ drop n kept.old }
{
    if stays {
        return;
    }
    let mut values = [0i32; MAX_VARIABLES];
    write_values(table, n, &mut values);
    keep(&values, n, kept);
}

// The groups as they stay, or read off the table: the kept numbers behind the model.
fn renew_groups(table: &[i64], n: usize, stays: bool, kept: &mut [i64])
    requires { ShortTable n table.now × (length kept.old ≡ groups_room_lem n) }
    ensures { kept.new ≡ cond stays kept.old (widened (tabulate (2 * n) (group_at_lem (by_rows (2 * n) table.now)))) }
{
    if stays {
        return;
    }
    let mut bounds = [0i64; MOST_POINTS];
    let mut groups = [0u32; MOST_POINTS];
    write_bounds(table, n, &mut bounds);
    write_groups(table, n, &bounds, &mut groups);
    keep(&groups, 2 * n, kept);
}

// What does not stay is read off the table anew, where each of its numbers is a distance; else nothing is written.
pub fn renew(table: &[i64], n: usize, model_stays: bool, groups_stay: bool, kept: &mut [i64])
    requires { SizedTable n table.now × (length kept.old ≡ kept_room_lem n) }
    ensures { kept.new ≡ kept_after n model_stays groups_stay table.now kept.old }
{
    if model_stays && groups_stay {
        return;
    }
    let is_wrong = first_beyond(table) < table.len();
    if is_wrong {
        return;
    }
    renew_model(table, n, model_stays, kept);
    renew_groups(table, n, groups_stay, &mut kept[n..]);
}

// The kept values, each 0 where it is beyond all models.
#[tactic(auto, using(integers::specs::Fill::filled_more))]
fn read_values(kept: &[i64], n: usize, values: &mut [i64])
    requires { (n ≤ length kept.now) × (n ≤ length values.old) }
    ensures { values.new ≡ tabulate n (value_at kept.now) ++ drop n values.old }
{
    for i in 0..n {
        values[i] = small_value(kept[i]);
    }
}

// Whether the kept model meets a line.
pub fn keeps_model(kept: &[i64], n: usize, line: Line) -> bool
    requires { (n ≤ length kept.now) × (n ≤ max_variables) × LineWorks n line }
    ensures { result ≡ keeps_model_lem n kept.now line }
{
    let mut values = [0i64; MAX_VARIABLES];
    read_values(kept, n, &mut values);
    is_met(line, &values[0..n])
}

// Whether the closed way through the step with a number is wide; where there is no such step, it counts as wide.
fn step_wide(list: &[i32], number: usize, table: &[i64], n: usize) -> bool
    requires { SizedTable n table.now × LinesOk n list.now }
    ensures { result ≡ wide_step (small_table (2 * n) table.now) (step_numbered_lem list.now number) }
{
    match step_numbered(list, number) {
        Some(step) => EQUAL_SLACK < sum_along(table, n, step.to, step),
        None => true,
    }
}

// Whether both steps of line k are wide: then the groups stay.
pub fn keeps_groups(list: &[i32], k: usize, table: &[i64], n: usize) -> bool
    requires { SizedTable n table.now × LinesOk n list.now × (k < line_count list.now) }
    ensures { result ≡ keeps_groups_lem n list.now k table.now }
{
    if !step_wide(list, 2 * k, table, n) {
        return false;
    }
    step_wide(list, 2 * k + 1, table, n)
}

// A number of the groups as it is given: one that is beyond all variables is 0.
fn small_group(z: i64) -> u32
    ensures { result ≡ small_group_lem z }
{
    if between(0, MAX_VARIABLES as i64, z) {
        z as u32
    } else {
        0
    }
}

// The kept model, to the front of a list.
#[tactic(auto, using(integers::specs::Fill::filled_more))]
fn give_model(kept: &[i64], n: usize, model: &mut [i32])
    requires { (n ≤ length kept.now) × (n ≤ length model.old) }
    ensures { model.new ≡ tabulate n (value_at kept.now) ++ drop n model.old }
{
    for i in 0..n {
        model[i] = small_value(kept[i]) as i32;
    }
}

// The bound with number i, read off the table: a variable's least, which is the greatest of its opposite negated, then its
// greatest. An absent greatest value is written as the number that stands for no walk.
fn bound_of(table: &[i64], n: usize, i: usize) -> i64
    requires { SizedTable n table.now × (i < 2 * n) }
    ensures { result ≡ bound_at (small_table (2 * n) table.now) i }
{
    if i % 2 == 1 {
        return half_of(table, n, i - 1);
    }
    let half = half_of(table, n, i + 1);
    if half == NO_WALK {
        return ABSENT_LEAST;
    }
    -half
}

// The bounds of all n variables, read off the table, to the front of a list.
#[tactic(auto, using(integers::specs::Fill::filled_more))]
fn give_bounds(table: &[i64], n: usize, bounds: &mut [i64])
    requires { SizedTable n table.now × (2 * n ≤ length bounds.old) }
    ensures { bounds.new ≡ tabulate (2 * n) (bound_at (small_table (2 * n) table.now)) ++ drop (2 * n) bounds.old }
{
    let count = 2 * n;
    for i in 0..count {
        bounds[i] = bound_of(table, n, i);
    }
}

// The kept groups, to the front of a list.
#[tactic(auto, using(integers::specs::Fill::filled_more))]
fn give_groups(kept: &[i64], n: usize, groups: &mut [u32])
    requires { (n ≤ max_variables) × (length kept.now ≡ kept_room_lem n) × (groups_room_lem n ≤ length groups.old) }
    ensures { groups.new ≡ tabulate (2 * n) (group_number n kept.now) ++ drop (2 * n) groups.old }
{
    let count = 2 * n;
    for i in 0..count {
        groups[i] = small_group(kept[n + i]);
    }
}

// The three outputs, each at the front of its list: model and groups as they are kept, the bounds read off the table.
pub fn give(
    table: &[i64],
    kept: &[i64],
    n: usize,
    model: &mut [i32],
    bounds: &mut [i64],
    groups: &mut [u32],
)
    requires { GiveReady n table.now kept.now model.old bounds.old groups.old }
    ensures { Given n table.now kept.now model.old bounds.old groups.old model.new bounds.new groups.new }
{
    give_model(kept, n, model);
    give_bounds(table, n, bounds);
    give_groups(kept, n, groups);
}
