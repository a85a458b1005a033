// The exported question of what two variables of a list imply about each other, with a lent work area.
ghost use Rattle.std.specs.Prelude.{◌≡◌};
ghost use Rattle.c_implied.specs.Calls.{returns, pair_returned};

use c_implied::CPair;

// The greatest values, over all whole numbers that meet every line of this list of n variables, of the sums and
// differences of the variables x and y.
#[unsafe(no_mangle)]
pub extern "C" fn utvpi_implied_pair(
    n: u64,
    list: &[i32],
    x: u64,
    y: u64,
    work: &mut [i64],
) -> CPair
    ensures { returns result work.new ≡ pair_returned n list.now x y work.old }
{
    c_implied::utvpi_implied_pair(n, list, x, y, work)
}
