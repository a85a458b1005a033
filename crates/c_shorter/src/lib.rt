// The exported function that is lent two refutations of a list and says which is the shorter accepted one. It answers a
// struct.

#![tactic(auto)]

ghost use Rattle.std.specs.Prelude.{◌≡◌};
ghost use Rattle.c_shorter.specs.Calls.{part_returned, shorter_returned};

use check_shorter::{Part, shorter_part};

// Which of the two refutations is the one.
const NEITHER: u64 = 0;

const FIRST: u64 = 1;

const SECOND: u64 = 2;

// What C gets: which of the two it is, and how many numbers from the front of its slice it has; 0 for none.
#[repr(C)]
#[derive(Clone, Copy)]
pub struct CPart {
    pub which: u64,
    pub length: u64,
}

// The struct that a part is returned as.
fn part_result(part: Part) -> CPart
    ensures { result ≡ part_returned part }
{
    match part {
        Part::OfFirst(length) => CPart {
            which: FIRST,
            length: length as u64,
        },
        Part::OfSecond(length) => CPart {
            which: SECOND,
            length: length as u64,
        },
        Part::Empty => CPart {
            which: NEITHER,
            length: 0,
        },
    }
}

// Which of these two refutations of this list of n variables is accepted, and which of two that are is the shorter?
pub fn utvpi_shorter(n: u64, list: &[i32], first: &[u32], second: &[u32]) -> CPart
    ensures { result ≡ shorter_returned n list.now first.now second.now }
{
    part_result(shorter_part(n as usize, list, first, second))
}
