// The state of a session in the numbers of one lent buffer: how it is laid out, whether some numbers are one, and what is
// read from it and written to it.

#![tactic(auto)]

ghost use Rattle.std.specs.Prelude.{◌≡◌, true, ◌++◌, ◌+◌, ◌*◌, ◌<◌, ◌≤◌, pos, nat_abs, length, drop};
ghost use Rattle.integers.specs.Integer.{◌⩽◌};
ghost use Rattle.lines.specs.Limits.{line_size, max_variables, max_lines};
ghost use Rattle.lines.specs.Line.{line_numbers_lem};
ghost use Rattle.longer_list.specs.Written.{most_numbers};
ghost use Rattle.session_state.specs.State.{head_size, table_room_lem, kept_room_lem, table_end, session_room_lem, flag_of_lem, head_of, head_ok_lem, fit_all_lem, is_state_lem, numbers_in, numbers_with, count_in, headed, started, pushed, popped};

use decide_buffers::clear;
use integers::between;
use lines::limits::{LINE_SIZE, MAX_LINES, MAX_VARIABLES};
use lines::{Line, line_numbers};
use longer_list::write_line;

// The numbers before those of the lines: n, how many lines there are, and whether the last answer was a no.
const HEAD_SIZE: usize = 3;
// The place of the state among the buffers that may be too short.
pub const STATE_PLACE: usize = 6;
// The numbers before what is known of the lines: these, and room for the most lines.
pub const FRONT_ROOM: usize = HEAD_SIZE + LINE_SIZE * MAX_LINES;
// How many numbers the model and the groups of the most variables have, as `kept_room` says.
pub const MOST_KEPT: usize = MAX_VARIABLES + 2 * MAX_VARIABLES;
// The least and the greatest number of 32 bits.
const LEAST: i64 = i32::MIN as i64;

const GREATEST: i64 = i32::MAX as i64;

// What stands before the lines.
#[derive(Clone, Copy)]
pub struct Head {
    pub n: usize,
    pub count: usize,
    pub refused: bool,
}

// How many numbers the table of n variables has, one for each two points.
pub fn table_room(n: usize) -> usize
    requires { n ≤ max_variables }
    ensures { result ≡ table_room_lem n }
{
    2 * n * (2 * n)
}

// How many the model and the groups have, which are kept behind it.
pub fn kept_room(n: usize) -> usize
    requires { n ≤ max_variables }
    ensures { result ≡ kept_room_lem n }
{
    n + 2 * n
}

// Where the table ends.
#[tactic(auto, using(crate::specs::Laws::table_small), unfolding(crate::specs::State::table_end))]
pub fn table_end(n: usize) -> usize
    requires { n ≤ max_variables }
    ensures { result ≡ table_end n }
{
    FRONT_ROOM + table_room(n)
}

// The room for a state of n variables.
#[tactic(auto, using(crate::specs::Laws::table_small, crate::specs::Laws::end_is, crate::specs::Laws::room_is), unfolding(crate::specs::State::known_room))]
pub fn session_room(n: usize) -> usize
    requires { n ≤ max_variables }
    ensures { result ≡ session_room_lem n }
{
    table_end(n) + kept_room(n)
}

// Whether n, the count of lines and the last answer are right, and the state has its room.
#[tactic(auto, unfolding(crate::specs::State::head_ok_lem))]
pub fn head_ok(state: &[i64]) -> bool
    ensures { result ≡ head_ok_lem state.now }
{
    state.len() >= HEAD_SIZE
        && between(0, MAX_VARIABLES as i64, state[0])
        && between(0, MAX_LINES as i64, state[1])
        && between(0, 1, state[2])
        && session_room(state[0] as usize) <= state.len()
}

// What stands before the lines.
#[tactic(auto, using(crate::specs::Laws::head_ok))]
pub fn read_head(state: &[i64]) -> Head
    requires { head_ok_lem state.now ≡ true }
    ensures { result ≡ head_of state.now }
{
    Head {
        n: state[0] as usize,
        count: state[1] as usize,
        refused: state[2] != 0,
    }
}

// The numbers of the lines of a state.
#[tactic(auto, using(crate::specs::Laws::head_ok, crate::specs::Laws::lines_end, crate::specs::Laws::lines_part))]
fn numbers_in(state: &[i64]) -> &[i64]
    requires { head_ok_lem state.now ≡ true }
    ensures { result.now ≡ numbers_in state.now }
{
    let head = read_head(state);
    &state[HEAD_SIZE..HEAD_SIZE + LINE_SIZE * head.count]
}

// Whether each number fits 32 bits.
fn fit_all(numbers: &[i64]) -> bool
    ensures { result ≡ fit_all_lem numbers.now }
{
    numbers.iter().all(|&z| between(LEAST, GREATEST, z))
}

// Whether the numbers begin with a state.
#[tactic(auto, unfolding(crate::specs::State::is_state_lem))]
pub fn is_state(state: &[i64]) -> bool
    ensures { result ≡ is_state_lem state.now }
{
    head_ok(state) && fit_all(numbers_in(state))
}

// Copies numbers of 32 bits to the front of a list.
#[tactic(auto, using(crate::specs::Laws::fit_at, integers::specs::Fill::filled_more, longer_list::specs::Written::filled_all))]
fn narrow_to(numbers: &[i64], list: &mut [i32])
    requires { (fit_all_lem numbers.now ≡ true) × (length numbers.now ≤ length list.old) }
    ensures { list.new ≡ numbers.now ++ drop (length numbers.now) list.old }
{
    for i in 0..numbers.len() {
        list[i] = numbers[i] as i32;
    }
}

// Copies the numbers of the lines of a state to the front of a list.
#[tactic(auto, using(crate::specs::Laws::state_head, crate::specs::Laws::state_head_ok, crate::specs::Laws::state_fits, crate::specs::Laws::length_numbers_in))]
pub fn copy_lines(state: &[i64], list: &mut [i32])
    requires { (is_state_lem state.now ≡ true) × (line_size * max_lines ≤ length list.old) }
    ensures { list.new ≡ numbers_in state.now ++ drop (line_size * count_in state.now) list.old }
{
    narrow_to(numbers_in(state), list);
}

// Copies numbers to the front of a list of numbers of 64 bits.
#[tactic(auto, using(integers::specs::Fill::filled_more, longer_list::specs::Written::filled_all))]
fn widen_to(numbers: &[i32], wide: &mut [i64])
    requires { length numbers.now ≤ length wide.old }
    ensures { wide.new ≡ numbers.now ++ drop (length numbers.now) wide.old }
{
    for i in 0..numbers.len() {
        wide[i] = i64::from(numbers[i]);
    }
}

// Copies the numbers of the lines of a state, and those of one line more, to the front of a list.
#[tactic(auto, using(crate::specs::Laws::state_head, crate::specs::Laws::state_head_ok, crate::specs::Laws::length_numbers_in))]
pub fn copy_with(state: &[i64], line: Line, list: &mut [i32])
    requires { (is_state_lem state.now ≡ true) × (most_numbers ≤ length list.old) }
    ensures { list.new ≡ numbers_with state.now line ++ drop (length (numbers_with state.now line)) list.old }
{
    copy_lines(state, list);
    let at = numbers_in(state).len();
    write_line(&mut list[at..], line);
}

// Writes the numbers of a line to the front of a list of numbers of 64 bits.
#[tactic(auto, using(lines::specs::LineNumbers::length_numbers))]
fn put_line(wide: &mut [i64], line: Line)
    requires { line_size ≤ length wide.old }
    ensures { wide.new ≡ line_numbers_lem line ++ drop line_size wide.old }
{
    let numbers = line_numbers(line);
    widen_to(&numbers, wide);
}

// Writes how many lines there are, and whether the last answer was a no.
fn set_head(state: &mut [i64], count: usize, refused: bool)
    requires { (head_size ≤ length state.old) × (count ≤ max_lines) }
    ensures { state.new ≡ headed count refused state.old }
{
    state[1] = count as i64;
    state[2] = i64::from(refused);
}

// Writes n, and that there are no lines. What is known is left as it was.
#[tactic(auto, using(crate::specs::Laws::room_is), unfolding(crate::specs::State::started))]
pub fn begin_state(state: &mut [i64], n: usize)
    requires { (n ≤ max_variables) × (session_room_lem n ≤ length state.old) }
    ensures { state.new ≡ started n state.old }
{
    clear(state, FRONT_ROOM);
    state[0] = n as i64;
}

// Writes one line more, and whether the last answer was a no.
#[tactic(auto, using(crate::specs::Laws::head_ok, crate::specs::Laws::lines_end, crate::specs::Laws::next_end), unfolding(crate::specs::State::pushed))]
pub fn push_line(state: &mut [i64], line: Line, refused: bool)
    requires { (head_ok_lem state.old ≡ true) × (count_in state.old < max_lines) }
    ensures { state.new ≡ pushed state.old line refused }
{
    let count = read_head(state).count;
    let at = HEAD_SIZE + LINE_SIZE * count;
    put_line(&mut state[at..], line);
    set_head(state, count + 1, refused);
}

// Takes the last line away: zeros where it stood, and the last answer was no no.
#[tactic(auto, using(crate::specs::Laws::head_ok, crate::specs::Laws::lines_end), unfolding(crate::specs::State::popped))]
pub fn pop_line(state: &mut [i64])
    requires { (head_ok_lem state.old ≡ true) × (0 < count_in state.old) }
    ensures { state.new ≡ popped state.old }
{
    let count = read_head(state).count - 1;
    let at = HEAD_SIZE + LINE_SIZE * count;
    clear(&mut state[at..], LINE_SIZE);
    set_head(state, count, false);
}
