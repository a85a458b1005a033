// A list against a line, in a buffer: the list, lines 0 <= 0 up to the most lines, and behind these the opposite of the line.

#![tactic(auto)]

ghost use Rattle.std.specs.Prelude.{◌≡◌};
ghost use Rattle.shown_list.specs.Against.{against};
ghost use Rattle.shown_list.specs.Written.{AgainstReady};

use lines::Line;
use lines::limits::{LINE_SIZE, MAX_LINES};
use longer_list::{copy_to, write_line};
use opposite_line::opposite_line;

// The list against the line, where zeros stood.
pub fn write_against(list: &[i32], line: Line, out: &mut [i32])
    requires { AgainstReady list.now line out.old }
    ensures { out.new ≡ against list.now line }
{
    let last = opposite_line(line);
    copy_to(list, out);
    write_line(&mut out[LINE_SIZE * MAX_LINES..], last);
}
