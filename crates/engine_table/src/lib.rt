// The table of distances by elimination of variables on reduced weights, over the steps that stand at the front of the work
// area. A potential shows that no closed walk is negative; variables get places, those with few steps first, and the steps
// are renamed; the table on reduced weights is closed, and if it is settled, its rows are the distances. Each of these is
// looked at, so that nothing is asked of the way; where one look fails, the table is made in rounds.

#![tactic(auto)]

ghost use Rattle.engine_table.specs.Placed.{PlaceReady, Placed};
ghost use Rattle.engine_table.specs.Settling.{SettleReady, Settling, StartReady, Started};
ghost use Rattle.engine_table.specs.Made.{MadeReady, Made};
ghost use Rattle.engine_table.specs.Found.{TableAsked, StandingAgain, TableFound};

use decide_table_by_rounds::distance_table;
use engine_closed_walk::is_potential;
use engine_finished_rows::write_rows;
use engine_merged_steps::{all_laid, merge_steps};
use engine_ordered_rounds::ordered_rounds;
use engine_packed_steps::layout::{places_at, points_at, row_at};
use engine_reduced_start::{fill_far, put_all, write_points};
use engine_renaming::{alone, is_renaming, order_variables, rename_steps};
use engine_restoring::close;
use engine_settled_table::table_settled;
use lines::limits::LINE_SIZE;

// Rounds are tried where the steps are so many times the points, and the square of the points is so many times the steps.
const MANY: usize = 8;

// Whether the variables have places; the steps are renamed then.
fn placed(work: &mut [i64], count: usize, n: usize, at: usize) -> bool
    requires { PlaceReady count n at work.old }
    ensures { Placed count n at work.old work.new result }
{
    order_variables(work, count, n, at);
    if !is_renaming(work, n, at) {
        return false;
    }
    rename_steps(work, count, n, at);
    true
}

// The table on reduced weights as it begins: single steps.
fn start_table(work: &mut [i64], count: usize, n: usize)
    requires { StartReady count n work.old }
    ensures { Started count n work.old work.new }
{
    let size = 2 * n;
    let pot = points_at(n);
    write_points(work, count, pot, size, row_at(n), places_at(n) + n);
    fill_far(work, pot, size);
    put_all(work, count, pot, size);
}

// Whether a few rounds settle the table, where there are many steps; else it is as it began.
fn settled_by_rounds(work: &mut [i64], count: usize, pot: usize, size: usize) -> bool
    requires { SettleReady count pot size work.old }
    ensures { Settling count pot size work.old work.new result }
{
    if count < MANY * size {
        return false;
    }
    if size * size < MANY * count {
        return false;
    }
    if ordered_rounds(work, count, pot, size) {
        if table_settled(work, count, pot, size) {
            return true;
        }
    }
    fill_far(work, pot, size);
    put_all(work, count, pot, size);
    false
}

// Whether the table is settled, by rounds or by elimination from a first variable on.
fn settled(work: &mut [i64], count: usize, pot: usize, size: usize, first: usize) -> bool
    requires { SettleReady count pot size work.old }
    ensures { Settling count pot size work.old work.new result }
{
    if settled_by_rounds(work, count, pot, size) {
        return true;
    }
    close(work, count, pot, size, first);
    table_settled(work, count, pot, size)
}

// Whether the table of distances is made.
fn made(work: &mut [i64], count: usize, n: usize) -> bool
    requires { MadeReady count n work.old }
    ensures { Made count n work.old work.new result }
{
    let size = 2 * n;
    if !is_potential(work, count, row_at(n), size) {
        return false;
    }
    let at = places_at(n);
    if !placed(work, count, n, at) {
        return false;
    }
    start_table(work, count, n);
    let pot = points_at(n);
    let first = alone(work, n, at);
    if !settled(work, count, pot, size, first) {
        return false;
    }
    write_rows(work, count, n, at, pot);
    true
}

// Where there are many lines and all their steps stand, these once more, of those between the same points only the
// lightest.
fn fewer_steps(list: &[i32], n: usize, count: usize, work: &mut [i64]) -> usize
    requires { TableAsked n list.now count work.old }
    ensures { StandingAgain n list.now work.old work.new result }
{
    if list.len() / LINE_SIZE <= 4 * n {
        return count;
    }
    if !all_laid(list, n) {
        return count;
    }
    merge_steps(list, n, work)
}

// The distances between all points, behind the place that the rows of one source take: 2n. Or a point whose distance to
// itself is below 0. The steps stand at the front, and a row that is a potential if no closed walk is negative behind the
// walks.
pub fn table_by_elimination(list: &[i32], n: usize, count: usize, work: &mut [i64]) -> usize
    requires { TableAsked n list.now count work.old }
    ensures { TableFound n list.now work.old work.new result }
{
    let kept = fewer_steps(list, n, count, work);
    if made(work, kept, n) {
        return 2 * n;
    }
    distance_table(list, n, work)
}
