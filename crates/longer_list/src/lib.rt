// A list with a line more behind it, in a buffer: numbers copied to the front of it, and a line's numbers written behind
// them.

#![tactic(auto)]

ghost use Rattle.std.specs.Prelude.{◌≡◌, ◌++◌, ◌+◌, ◌≤◌, length, drop};
ghost use Rattle.lines.specs.Limits.{line_size};
ghost use Rattle.lines.specs.Line.{line_numbers_lem};

use lines::limits::{LINE_SIZE, MAX_LINES};
use lines::{Line, line_numbers};

// The numbers of the most lines and of one more.
pub const MOST_NUMBERS: usize = LINE_SIZE * MAX_LINES + LINE_SIZE;

// Copies numbers to the front of a list.
pub fn copy_to(numbers: &[i32], list: &mut [i32])
    requires { length numbers.now ≤ length list.old }
    ensures { list.new ≡ numbers.now ++ drop (length numbers.now) list.old }
{
    list[..numbers.len()].copy_from_slice(numbers);
}

// Writes the numbers of a line to the front of a list.
pub fn write_line(list: &mut [i32], line: Line)
    requires { line_size ≤ length list.old }
    ensures { list.new ≡ line_numbers_lem line ++ drop line_size list.old }
{
    copy_to(&line_numbers(line), list);
}

// Copies the numbers of a list, and those of one line more, to the front of a longer one.
pub fn copy_with_line(list: &[i32], line: Line, longer: &mut [i32])
    requires { length list.now + line_size ≤ length longer.old }
    ensures { longer.new ≡ (list.now ++ line_numbers_lem line) ++ drop (length (list.now ++ line_numbers_lem line)) longer.old }
{
    let at = list.len();
    copy_to(list, longer);
    write_line(&mut longer[at..], line);
}
