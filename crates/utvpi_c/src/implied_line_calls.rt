// The exported question whether every solution of a list meets a line, with lent buffers. It answers one number.
ghost use Rattle.c_implied_line.specs.Calls.{LineReturns};

use lines::Line;

// Does this line hold of all whole numbers that meet every line of this list of n variables? If not, the model takes
// numbers that meet the list and not the line.
#[unsafe(no_mangle)]
pub extern "C" fn utvpi_implied_line(
    n: u64,
    list: &[i32],
    line: Line,
    model: &mut [i32],
    work: &mut [i64],
) -> i64
    ensures { LineReturns n list.now line result
        (record { model = model.old; work = work.old })
        (record { model = model.new; work = work.new }) }
{
    c_implied_line::utvpi_implied_line(n, list, line, model, work)
}
