// An answer as text: "yes" and a line for each variable, "no" and a line with the refutation's numbers, or one line
// with what a refusal says. Each function puts its text into a lent slice, from `at` on, and returns the place behind it.

#![tactic(auto)]

ghost use Rattle.std.specs.Prelude.{◌≡◌, ◌∷◌, [], ◌+◌, ◌*◌, ◌<◌, ◌≤◌, length};
ghost use Rattle.file_text.specs.Text.{decimal_of, signed_text, bound_text, line_text, yes_text, no_text, refused_text};
ghost use Rattle.file_text.specs.Put.{Put, Wrote};
ghost use Rattle.file_text.specs.Rooms.{digits_room, signed_room, field_room, line_room};
ghost use Rattle.file_text.specs.Steps.{value_text, bounds_text, group_text, next_text};

use io::decimal;

// One byte.
fn put_byte(out: &mut [u8], at: usize, byte: u8) -> usize
    requires { at + 1 ≤ length out.old }
    ensures { Put 1 at (byte ∷ []) out.old out.new result }
{
    out[at] = byte;
    at + 1
}

// A text that is there already.
fn put_text(out: &mut [u8], at: usize, text: &[u8]) -> usize
    requires { at + length text.now ≤ length out.old }
    ensures { Put (length text.now) at text.now out.old out.new result }
{
    let end = at + text.len();
    out[at..end].copy_from_slice(text);
    end
}

// A number in decimal.
fn put_decimal(out: &mut [u8], at: usize, n: u64) -> usize
    requires { at + digits_room ≤ length out.old }
    ensures { Put digits_room at (decimal_of n) out.old out.new result }
{
    let mut digits = [0u8; 20];
    let count = decimal(n, &mut digits);
    put_text(out, at, &digits[..count])
}

// A number in decimal, with its sign where it is below 0.
fn put_signed(out: &mut [u8], at: usize, z: i64) -> usize
    requires { at + signed_room ≤ length out.old }
    ensures { Put signed_room at (signed_text z) out.old out.new result }
{
    if z < 0 {
        let next = put_byte(out, at, b'-');
        return put_decimal(out, next, z.unsigned_abs());
    }
    put_decimal(out, at, z.unsigned_abs())
}

// A bound, or a dot for the number that stands for none.
fn put_bound(out: &mut [u8], at: usize, z: i64, absent: i64) -> usize
    requires { at + signed_room ≤ length out.old }
    ensures { Put signed_room at (bound_text absent z) out.old out.new result }
{
    if z == absent {
        return put_byte(out, at, b'.');
    }
    put_signed(out, at, z)
}

// A variable's number and value, each with a space behind it.
fn put_value(out: &mut [u8], at: usize, x: usize, value: i32) -> usize
    requires { at + 2 * field_room ≤ length out.old }
    ensures { Put (2 * field_room) at (value_text x value) out.old out.new result }
{
    let mut next = put_decimal(out, at, x as u64);
    next = put_byte(out, next, b' ');
    next = put_signed(out, next, value as i64);
    put_byte(out, next, b' ')
}

// A variable's least and greatest value, each with a space behind it.
fn put_bounds(out: &mut [u8], at: usize, least: i64, greatest: i64) -> usize
    requires { at + 2 * field_room ≤ length out.old }
    ensures { Put (2 * field_room) at (bounds_text least greatest) out.old out.new result }
{
    let mut next = put_bound(out, at, least, i64::MIN);
    next = put_byte(out, next, b' ');
    next = put_bound(out, next, greatest, i64::MAX);
    put_byte(out, next, b' ')
}

// A variable's group variable and sign, with a space between, and the end of the line.
fn put_group(out: &mut [u8], at: usize, variable: u32, sign: u32) -> usize
    requires { at + 2 * field_room ≤ length out.old }
    ensures { Put (2 * field_room) at (group_text variable sign) out.old out.new result }
{
    let mut next = put_decimal(out, at, variable as u64);
    next = put_byte(out, next, b' ');
    next = put_decimal(out, next, sign as u64);
    put_byte(out, next, b'\n')
}

// The line of the variable x: its number, value, least, greatest, group variable and sign.
fn put_variable_line(
    out: &mut [u8],
    at: usize,
    x: usize,
    model: &[i32],
    bounds: &[i64],
    groups: &[u32],
) -> usize
    requires { (x < length model.now) × (2 * x + 1 < length bounds.now) × (2 * x + 1 < length groups.now) × (at + line_room ≤ length out.old) }
    ensures { Put line_room at (line_text x model.now bounds.now groups.now) out.old out.new result }
{
    let mut next = put_value(out, at, x, model[x]);
    next = put_bounds(out, next, bounds[2 * x], bounds[2 * x + 1]);
    put_group(out, next, groups[2 * x], groups[2 * x + 1])
}

// The answer yes with n variables.
pub fn write_yes(n: usize, model: &[i32], bounds: &[i64], groups: &[u32], out: &mut [u8]) -> usize
    requires { (n ≤ length model.now) × (2 * n ≤ length bounds.now) × (2 * n ≤ length groups.now) × (4 + n * line_room ≤ length out.old) }
    ensures { Wrote (yes_text n model.now bounds.now groups.now) out.old out.new result }
{
    let mut at = put_text(out, 0, b"yes\n");
    for x in 0..n {
        at = put_variable_line(out, at, x, model, bounds, groups);
    }
    at
}

// The number with index i of a refutation, after a space where others stand before it.
fn put_next(out: &mut [u8], at: usize, i: usize, number: u32) -> usize
    requires { at + field_room ≤ length out.old }
    ensures { Put field_room at (next_text i number) out.old out.new result }
{
    if i == 0 {
        return put_decimal(out, at, number as u64);
    }
    let next = put_byte(out, at, b' ');
    put_decimal(out, next, number as u64)
}

// The answer no with the refutation's numbers.
pub fn write_no(numbers: &[u32], out: &mut [u8]) -> usize
    requires { 3 + length numbers.now * field_room + 1 ≤ length out.old }
    ensures { Wrote (no_text numbers.now) out.old out.new result }
{
    let mut at = put_text(out, 0, b"no\n");
    for (i, number) in numbers.iter().enumerate() {
        at = put_next(out, at, i, *number);
    }
    put_byte(out, at, b'\n')
}

// A refusal: its number and its place.
pub fn write_refused(number: usize, place: usize, out: &mut [u8]) -> usize
    requires { 8 + 2 * field_room ≤ length out.old }
    ensures { Wrote (refused_text number place) out.old out.new result }
{
    let mut next = put_text(out, 0, b"refused ");
    next = put_decimal(out, next, number as u64);
    next = put_byte(out, next, b' ');
    next = put_decimal(out, next, place as u64);
    put_byte(out, next, b'\n')
}
