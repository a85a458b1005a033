// The pair: the greatest values that the sums and differences of two variables have over all solutions of a list.

#![tactic(auto)]

ghost use Rattle.std.specs.Prelude.{◌≡◌, ◌*◌, ◌<◌};
ghost use Rattle.steps.specs.Point.{opposite};
ghost use Rattle.theory_bounds.specs.Tight.{tight};
ghost use Rattle.decide_rows.specs.Stored.{stored};
ghost use Rattle.decide_stored_table.specs.Table.{table_of, ShortTable};
ghost use Rattle.implied_pair.specs.Pair.{pair_row, pair_in_lem, called, pair_validity_lem, pair_call};

use decide::refuted;
use decide_buffers::{MOST_REFUTATION, clear, work_room};
use decide_stored_table::{entry_at, half_at, tightened};
use lines::{Refusal, list_validity};
use steps::opposite_of;

// A row for each sign of x: x + y and x - y, then -x + y and -x - y.
#[derive(Clone, Copy)]
pub struct Pair {
    pub plus: [i64; 2],
    pub minus: [i64; 2],
}

// The first refusal that applies: the list's, then 5 for x and for y, then 8. The work area is given by its length.
#[tactic(auto, using(lines::specs::Valid::valid_list), unfolding(crate::specs::Pair::pair_validity_lem))]
fn pair_validity(n: usize, list: &[i32], x: usize, y: usize, work: usize) -> Result<(), Refusal>
    ensures { result ≡ pair_validity_lem n list.now x y work }
{
    list_validity(n, list)?;
    if n <= x {
        return Err(Refusal::BadVariable(0));
    }
    if n <= y {
        return Err(Refusal::BadVariable(1));
    }
    if work < work_room(n) {
        return Err(Refusal::ShortWorkArea);
    }
    Ok(())
}

// The greatest sum of the points p and q: the tightened distance from p to the opposite of q.
fn greatest_sum(table: &[i64], n: usize, p: usize, q: usize) -> i64
    requires { ShortTable n table.now × (p < 2 * n) × (q < 2 * n) }
    ensures { result ≡ stored (tight (table_of (2 * n) table.now) p (opposite q)) }
{
    tightened(
        entry_at(table, n, p, opposite_of(q)),
        half_at(table, n, p),
        half_at(table, n, q),
    )
}

// The row of the point p: its sum with y, then with -y.
fn row_of(table: &[i64], n: usize, p: usize, y: usize) -> [i64; 2]
    requires { ShortTable n table.now × (p < 2 * n) × (y < n) }
    ensures { result ≡ pair_row (table_of (2 * n) table.now) p y }
{
    let with_plus = greatest_sum(table, n, p, 2 * y);
    let with_minus = greatest_sum(table, n, p, 2 * y + 1);
    [with_plus, with_minus]
}

// Both rows.
fn pair_in(table: &[i64], n: usize, x: usize, y: usize) -> Pair
    requires { ShortTable n table.now × (x < n) × (y < n) }
    ensures { result ≡ pair_in_lem (table_of (2 * n) table.now) x y }
{
    let plus = row_of(table, n, 2 * x, y);
    let minus = row_of(table, n, 2 * x + 1, y);
    Pair { plus, minus }
}

// For the variables x and y of a list of n: the greatest value over all solutions of each sum of the two, with either
// sign of each; the highest 64-bit number stands for none. A list without a solution implies no pair.
pub fn implied_pair(
    n: usize,
    list: &[i32],
    x: usize,
    y: usize,
    work: &mut [i64],
) -> Result<Option<Pair>, Refusal>
    ensures { called result work.new ≡ pair_call n list.now x y work.old }
{
    pair_validity(n, list, x, y, work.len())?;
    let room = work_room(n);
    let mut refutation = [0; MOST_REFUTATION];
    if refuted(list, n, &mut refutation, work) {
        clear(work, room);
        return Ok(None);
    }
    let size = 2 * n;
    let start = (size + 1) * size;
    let pair = pair_in(&work[start..start + size * size], n, x, y);
    clear(work, room);
    Ok(Some(pair))
}
