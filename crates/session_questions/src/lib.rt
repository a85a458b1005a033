// Questions to a table of distances: the pair of two variables and whether a line is implied, each by a few entries. The
// table may hold any numbers; of one that is the table of a list the answers are those on the list.

#![tactic(auto)]

ghost use Rattle.std.specs.Prelude.{◌≡◌, ◌*◌, ◌<◌};
ghost use Rattle.lines.specs.Valid.{LineWorks, LinesOk};
ghost use Rattle.steps.specs.Step.{step_numbered_lem};
ghost use Rattle.theory_bounds.specs.Tight.{halves, tight};
ghost use Rattle.decide_rows.specs.Stored.{stored};
ghost use Rattle.implied_pair.specs.Pair.{pair_row, pair_in_lem};
ghost use Rattle.session_step.specs.Read.{small_table, SizedTable};
ghost use Rattle.session_questions.specs.Asked.{named_implied, line_implied};

use decide_rows::NO_WALK;
use decide_stored_table::tightened;
use implied_pair::Pair;
use integers::halved;
use lines::{Line, is_false, line_numbers};
use session_step::read_at;
use steps::{opposite_of, step_numbered};

// The greatest value that the distance to its opposite leaves the point p.
pub fn half_of(table: &[i64], n: usize, p: usize) -> i64
    requires { SizedTable n table.now × (p < 2 * n) }
    ensures { result ≡ stored (halves (small_table (2 * n) table.now) p) }
{
    let distance = read_at(table, n, p, opposite_of(p));
    if distance == NO_WALK {
        return NO_WALK;
    }
    halved(distance)
}

// The tightened distance from p to q.
fn tight_at(table: &[i64], n: usize, p: usize, q: usize) -> i64
    requires { SizedTable n table.now × (p < 2 * n) × (q < 2 * n) }
    ensures { result ≡ stored (tight (small_table (2 * n) table.now) p q) }
{
    tightened(
        read_at(table, n, p, q),
        half_of(table, n, p),
        half_of(table, n, opposite_of(q)),
    )
}

// The row of the point p: its greatest sum with y, then with -y.
fn row_of(table: &[i64], n: usize, p: usize, y: usize) -> [i64; 2]
    requires { SizedTable n table.now × (p < 2 * n) × (y < n) }
    ensures { result ≡ pair_row (small_table (2 * n) table.now) p y }
{
    let with_plus = tight_at(table, n, p, opposite_of(2 * y));
    let with_minus = tight_at(table, n, p, opposite_of(2 * y + 1));
    [with_plus, with_minus]
}

// The pair of x and y.
pub fn pair_asked(table: &[i64], n: usize, x: usize, y: usize) -> Pair
    requires { SizedTable n table.now × (x < n) × (y < n) }
    ensures { result ≡ pair_in_lem (small_table (2 * n) table.now) x y }
{
    let plus = row_of(table, n, 2 * x, y);
    let minus = row_of(table, n, 2 * x + 1, y);
    Pair { plus, minus }
}

// Whether the step with a number, where it names one, is no shorter than the tightened distance of its ends.
fn step_implied(table: &[i64], n: usize, list: &[i32], number: usize) -> bool
    requires { SizedTable n table.now × LinesOk n list.now }
    ensures { result ≡ named_implied (small_table (2 * n) table.now) (step_numbered_lem list.now number) }
{
    match step_numbered(list, number) {
        Some(step) => tight_at(table, n, step.from, step.to) <= step.weight,
        None => true,
    }
}

// Whether the line is implied: it is no false line, and both its steps are implied.
pub fn line_asked(table: &[i64], n: usize, line: Line) -> bool
    requires { SizedTable n table.now × LineWorks n line }
    ensures { result ≡ line_implied (small_table (2 * n) table.now) line }
{
    if is_false(line) {
        return false;
    }
    let numbers = line_numbers(line);
    if !step_implied(table, n, &numbers, 0) {
        return false;
    }
    step_implied(table, n, &numbers, 1)
}
