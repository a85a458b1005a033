// The first false line of a list, which is refuted by it alone.

#![tactic(auto)]

ghost use Rattle.std.specs.Prelude.{◌≡◌};
ghost use Rattle.lines.specs.Line.{lines_of};
ghost use Rattle.theory_bounds.specs.Verdict.{first_false_lem};

use lines::limits::LINE_SIZE;
use lines::{is_false, line_at};

// The number of the first false line, or the number of lines.
pub fn first_false(list: &[i32]) -> usize
    ensures { result ≡ first_false_lem 0 (lines_of list.now) }
{
    let count = list.len() / LINE_SIZE;
    for k in 0..count {
        if is_false(line_at(list, k)) {
            return k;
        }
    }
    count
}
