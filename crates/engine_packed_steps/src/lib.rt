// The steps of a list at the front of the work area, each in one number: its weight, its number in the list, its start
// and its end. Of two that go between the same points the lighter one is the smaller number.

#![tactic(auto)]

pub mod layout;

ghost use Rattle.std.specs.Prelude.{◌≡◌, ◌*◌, ◌<◌, pos, nat_abs};
ghost use Rattle.integers.specs.Integer.{◌⩽◌, Within};
ghost use Rattle.steps.specs.Step.{max_weight, step_numbered_lem};
ghost use Rattle.engine_packed_steps.specs.Packed.{point_radix, number_radix, from_in_lem, number_in, unpacked, Shifts, Packs};
ghost use Rattle.engine_packed_steps.specs.Steps.{step_in_lem, ReadReady};
ghost use Rattle.engine_packed_steps.specs.Written.{NumberReady, Put, WriteReady, Written};

use lines::limits::{LINE_SIZE, MAX_LINES, MAX_VARIABLES, WORK_CONSTANT};
use steps::{Step, step_numbered};

// A point, and a step's number in a list, are below these. Of numbers there may be two more than in a list of the most
// lines; with twice as many this stays a power of two, by which division is a shift.
const POINTS: usize = 2 * MAX_VARIABLES;

const NUMBERS: usize = 2 * (2 * MAX_LINES);
// Added to a weight, so that it is not below 0.
const OFFSET: i64 = 2 * WORK_CONSTANT;
// A step in one number is below this if its weight is below 0.
pub const LIGHT: i64 = OFFSET * (NUMBERS * POINTS * POINTS) as i64;

// A weight moved to be not below 0.
fn shifted(weight: i64) -> usize
    requires { Within max_weight weight }
    ensures { Shifts weight result }
{
    (weight + OFFSET) as usize
}

// A step in one number.
pub fn packed(from: usize, to: usize, weight: i64, number: usize) -> i64
    requires { (from < point_radix) × (to < point_radix) × Within max_weight weight × (number < number_radix) }
    ensures { Packs from to weight number result }
{
    let key = shifted(weight) * NUMBERS + number;
    let start = key * POINTS + from;
    let whole = start * POINTS + to;
    whole as i64
}

// The weight that was moved.
fn weight_of(whole: usize) -> i64
    requires { Within max_weight (unpacked whole).weight }
    ensures { result ≡ (unpacked whole).weight }
{
    let shifted = whole / (POINTS * POINTS * NUMBERS);
    shifted as i64 - OFFSET
}

// The number in the list of a step in one number.
pub fn number_in(z: i64) -> usize
    requires { pos 0 ⩽ z }
    ensures { (result ≡ number_in (nat_abs z)) × (result < number_radix) }
{
    z as usize / (POINTS * POINTS) % NUMBERS
}

// Where a step in one number starts.
pub fn from_in(z: i64) -> usize
    requires { pos 0 ⩽ z }
    ensures { (result ≡ from_in_lem (nat_abs z)) × (result < point_radix) }
{
    z as usize / POINTS % POINTS
}

// Step i of those at the front.
pub fn read_step(work: &[i64], i: usize) -> Step
    requires { ReadReady i work.now }
    ensures { result ≡ step_in_lem work.now i }
{
    let whole = work[i] as usize;
    let from = whole / POINTS % POINTS;
    let to = whole % POINTS;
    let weight = weight_of(whole);
    Step { from, to, weight }
}

// The step with a number, where it names one, behind `kept` others. How many there are then.
fn write_numbered(list: &[i32], n: usize, work: &mut [i64], number: usize, kept: usize) -> usize
    requires { NumberReady n list.now work.old number kept }
    ensures { Put n (step_numbered_lem list.now number) kept work.old work.new result }
{
    let named = step_numbered(list, number);
    if let Some(t) = named {
        work[kept] = packed(t.from, t.to, t.weight, number);
        return kept + 1;
    }
    kept
}

// All steps of the list. How many.
pub fn write_steps(list: &[i32], n: usize, work: &mut [i64]) -> usize
    requires { WriteReady n list.now work.old }
    ensures { Written n list.now work.old work.new result }
{
    let count = 2 * (list.len() / LINE_SIZE);
    let mut kept = 0;
    for number in 0..count {
        kept = write_numbered(list, n, work, number, kept);
    }
    kept
}
