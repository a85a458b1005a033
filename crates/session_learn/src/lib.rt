// A line learnt: whether the lines with it have a solution, from the table of those before it; and then the table of all.
// Nothing is written where they have none.

#![tactic(auto)]

ghost use Rattle.std.specs.Prelude.{◌≡◌, ◌*◌, ◌<◌};
ghost use Rattle.integers.specs.Integer.{Within};
ghost use Rattle.integers.specs.Table.{all_below};
ghost use Rattle.steps.specs.Step.{max_weight};
ghost use Rattle.theory_walks.specs.Distance.{min_d, half_d, ◌⊕◌, ◌⊞◌};
ghost use Rattle.theory_walks.specs.Negative.{not_below0};
ghost use Rattle.theory_bounds.specs.Verdict.{halves_ok_lem};
ghost use Rattle.theory_inserting.specs.Two.{insert_named};
ghost use Rattle.decide_rows.specs.Stored.{stored};
ghost use Rattle.decide_rows.specs.Read.{distance_of, Short};
ghost use Rattle.session_step.specs.Read.{small_table};
ghost use Rattle.theory_kept.specs.Slack.{wide_step};
ghost use Rattle.session_learn.specs.With.{max_way, NamedStepOk, EntryReady, StepsReady};
ghost use Rattle.session_learn.specs.Learnt.{LearnReady, both_wide_lem, learns, learnt};

use decide_rows::NO_WALK;
use decide_stored_table::smaller;
use integers::halved;
use lines::{is_false, line_at};
use session_line::{both_stay, put_line};
use session_step::read_at;
use steps::{Step, opposite_of, step_numbered};

// The greatest sum of a closed walk that makes two points equal, or halves contradict.
pub const EQUAL_SLACK: i64 = 2;

// A distance, or the way along a step of this weight where that is less.
fn way_with(own: i64, before: i64, weight: i64, after: i64) -> i64
    requires { Short max_way (distance_of before) × Short max_way (distance_of after) × Within max_weight weight }
    ensures { result ≡ stored (min_d (distance_of own) (distance_of before ⊕ weight ⊞ distance_of after)) }
{
    if before == NO_WALK {
        return own;
    }
    if after == NO_WALK {
        return own;
    }
    smaller(own, before + weight + after)
}

// The distance from u to v with a step that may be there.
fn entry_with(table: &[i64], n: usize, x: Option<Step>, u: usize, v: usize) -> i64
    requires { EntryReady n table.now x u v }
    ensures { result ≡ stored (insert_named (small_table (2 * n) table.now) x u v) }
{
    let own = read_at(table, n, u, v);
    if let Some(s) = x {
        let before = read_at(table, n, u, s.from);
        let after = read_at(table, n, s.to, v);
        return way_with(own, before, s.weight, after);
    }
    own
}

// The same with another step, too.
fn entry_with_both(
    table: &[i64],
    n: usize,
    x: Option<Step>,
    y: Option<Step>,
    u: usize,
    v: usize,
) -> i64
    requires { EntryReady n table.now x u v × EntryReady n table.now y u v }
    ensures { result ≡ stored (insert_named (insert_named (small_table (2 * n) table.now) x) y u v) }
{
    let own = entry_with(table, n, x, u, v);
    if let Some(s) = y {
        let before = entry_with(table, n, x, u, s.from);
        let after = entry_with(table, n, x, s.to, v);
        return way_with(own, before, s.weight, after);
    }
    own
}

// Whether the halves of two distances do not sum below 0.
fn halves_meet(there: i64, back: i64) -> bool
    ensures { result ≡ not_below0 (half_d (distance_of there) ⊞ half_d (distance_of back)) }
{
    if there == NO_WALK {
        return true;
    }
    if back == NO_WALK {
        return true;
    }
    0 <= halved(there) + halved(back)
}

// Whether the greatest value of a point is not below its least, with two steps.
fn point_stands(table: &[i64], n: usize, x: Option<Step>, y: Option<Step>, p: usize) -> bool
    requires { StepsReady n table.now x y × (p < 2 * n) }
    ensures { result ≡ halves_ok_lem (insert_named (insert_named (small_table (2 * n) table.now) x) y) p }
{
    let q = opposite_of(p);
    let there = entry_with_both(table, n, x, y, p, q);
    let back = entry_with_both(table, n, x, y, q, p);
    halves_meet(there, back)
}

// The same of all points.
fn points_stand(table: &[i64], n: usize, x: Option<Step>, y: Option<Step>) -> bool
    requires { StepsReady n table.now x y }
    ensures { result ≡ all_below (2 * n) (halves_ok_lem (insert_named (insert_named (small_table (2 * n) table.now) x) y)) }
{
    let count = 2 * n;
    for p in 0..count {
        if !point_stands(table, n, x, y, p) {
            return false;
        }
    }
    true
}

// Whether each closed walk through a step that may be there has a sum above the slack, with two steps.
fn is_wide(table: &[i64], n: usize, x: Option<Step>, y: Option<Step>, step: Option<Step>) -> bool
    requires { StepsReady n table.now x y × NamedStepOk n step }
    ensures { result ≡ wide_step (insert_named (insert_named (small_table (2 * n) table.now) x) y) step }
{
    if let Some(s) = step {
        let back = entry_with_both(table, n, x, y, s.to, s.from);
        return EQUAL_SLACK - s.weight < back;
    }
    true
}

// The same of both steps. Then no halves contradict that did not before, and no point need be asked.
fn both_wide(table: &[i64], n: usize, x: Option<Step>, y: Option<Step>) -> bool
    requires { StepsReady n table.now x y }
    ensures { result ≡ both_wide_lem (insert_named (insert_named (small_table (2 * n) table.now) x) y) x y }
{
    if !is_wide(table, n, x, y, x) {
        return false;
    }
    is_wide(table, n, x, y, y)
}

// Whether the lines with line k have a solution, where the table is that of the lines before, and these have one.
fn can_learn(list: &[i32], k: usize, table: &[i64], n: usize) -> bool
    requires { LearnReady n list.now k table.now }
    ensures { result ≡ learns n list.now k table.now }
{
    if is_false(line_at(list, k)) {
        return false;
    }
    if !both_stay(list, k, table, n) {
        return false;
    }
    let x = step_numbered(list, 2 * k);
    let y = step_numbered(list, 2 * k + 1);
    if both_wide(table, n, x, y) {
        return true;
    }
    points_stand(table, n, x, y)
}

// Line k behind those before it, whose table is lent: yes, and the table with its steps; or no, and the table as it was.
pub fn learn_line(list: &[i32], k: usize, table: &mut [i64], n: usize) -> bool
    requires { LearnReady n list.now k table.old }
    ensures { (result ≡ learns n list.now k table.old) × (table.new ≡ learnt n list.now k table.old) }
{
    if !can_learn(list, k, table, n) {
        return false;
    }
    put_line(list, k, table, n);
    true
}
