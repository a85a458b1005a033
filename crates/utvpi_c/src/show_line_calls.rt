// The exported showing of a line, with lent buffers. It answers one number.
ghost use Rattle.c_show_line.specs.Calls.{ShowReturns};

use lines::Line;

// Does this line hold of all whole numbers that meet every line of this list of n variables? If so, a showing of it is
// written.
#[unsafe(no_mangle)]
pub extern "C" fn utvpi_show_line(
    n: u64,
    list: &[i32],
    line: Line,
    refutation: &mut [u32],
    identifiers: &mut [u32],
    work: &mut [i64],
) -> i64
    ensures { ShowReturns n list.now line result
        (record { refutation = refutation.old; identifiers = identifiers.old; work = work.old })
        (record { refutation = refutation.new; identifiers = identifiers.new; work = work.new }) }
{
    c_show_line::utvpi_show_line(n, list, line, refutation, identifiers, work)
}
