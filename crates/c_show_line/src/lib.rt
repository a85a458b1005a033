// The exported showing of a line, with lent buffers. It answers one number.

#![tactic(auto)]

ghost use Rattle.std.specs.Prelude.{◌≡◌};
ghost use Rattle.show_line.specs.Places.{Below};
ghost use Rattle.c_codes.specs.Codes.{refusal_unit};
ghost use Rattle.c_show_line.specs.Calls.{show_code_lem, ShowReturns};

use c_codes::{NO, refusal_code};
use lines::{Line, Refusal};
use show_line::{ShowAnswer, show_line};

// The number that an answer of showing is returned as.
fn show_code(a: Result<ShowAnswer, Refusal>) -> i64
    requires { Below refusal_unit a }
    ensures { result ≡ show_code_lem a }
{
    match a {
        Ok(ShowAnswer::Shown) => 0,
        Ok(ShowAnswer::NotShown) => NO as i64,
        Err(r) => refusal_code(r),
    }
}

// Does this line hold of all whole numbers that meet every line of this list of n variables? If so, a showing of it is
// written.
#[tactic(auto, using(crate::specs::Laws::promised_below))]
pub fn utvpi_show_line(
    n: u64,
    list: &[i32],
    line: Line,
    refutation: &mut [u32],
    identifiers: &mut [u32],
    work: &mut [i64],
) -> i64
    ensures { ShowReturns n list.now line result
        (record { refutation = refutation.old; identifiers = identifiers.old; work = work.old })
        (record { refutation = refutation.new; identifiers = identifiers.new; work = work.new }) }
{
    show_code(show_line(n as usize, list, line, refutation, identifiers, work))
}
