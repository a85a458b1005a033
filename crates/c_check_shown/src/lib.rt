// The exported check of a showing, on bytes: four little-endian bytes to a number. It answers one number.

#![tactic(auto)]

ghost use Rattle.std.specs.Prelude.{◌≡◌, ◌*◌, ◌<◌, ◌≤◌, length};
ghost use Rattle.lines.specs.Limits.{line_size, max_variables, max_refutation};
ghost use Rattle.lines.specs.Line.{line_at};
ghost use Rattle.lines.specs.Valid.{LinesOk};
ghost use Rattle.little_endian.specs.Bytes.{int32s, nat32s};
ghost use Rattle.steps.specs.Step.{max_weight};
ghost use Rattle.check_refutation.specs.Progress.{start, run};
ghost use Rattle.check_refutation.specs.Small.{Small};
ghost use Rattle.c_codes.specs.Codes.{refusal_unit};
ghost use Rattle.c_codes.specs.ListBytes.{number_bytes};
ghost use Rattle.c_check_shown.specs.Calls.{broken_line_lem, showing_of_numbers_lem, check_shown_lem};

use c_codes::{LINE_BYTES, MOST_NUMBERS, NUMBER_BYTES, check_code, decode_list, refusal_code};
use check_answers::CheckAnswer;
use check_refutation::Progress;
use check_shown::showing_validity;
use lines::limits::{LINE_SIZE, MAX_REFUTATION};
use lines::{Line, Refusal, line_at};
use little_endian::{decode_i32, u32_at};
use longer_list::MOST_NUMBERS as AGAINST_NUMBERS;
use shown_list::write_against;

// The progress after all whole numbers of a showing in bytes, each taken as it is read.
fn read_bytes(list: &[i32], showing: &[u8]) -> Progress
    requires { LinesOk max_variables list.now × (length showing.now ≤ number_bytes * max_refutation) }
    ensures { (result ≡ run list.now start (nat32s showing.now)) × Small max_weight result }
{
    let count = showing.len() / NUMBER_BYTES;
    let mut progress = Progress::new();
    for i in 0..count {
        progress = progress.take(list, u32_at(showing, NUMBER_BYTES * i));
    }
    progress
}

// The answer on a showing in bytes.
#[tactic(auto, using(crate::specs::Laws::too_long, crate::specs::Laws::not_whole, crate::specs::Laws::whole_judged))]
fn showing_of_numbers(
    n: usize,
    list: &[i32],
    line: Line,
    showing: &[u8],
) -> Result<CheckAnswer, Refusal>
    ensures { result ≡ showing_of_numbers_lem n list.now line showing.now }
{
    showing_validity(n, list, line, 0)?;
    if NUMBER_BYTES * MAX_REFUTATION < showing.len() {
        return Err(Refusal::LongRefutation);
    }
    if showing.len() % NUMBER_BYTES != 0 {
        return Ok(CheckAnswer::No(0));
    }
    let mut against = [0i32; AGAINST_NUMBERS];
    write_against(list, line, &mut against);
    Ok(read_bytes(&against, showing).judge())
}

// The line in a line's bytes.
fn decode_line(line: &[u8]) -> Line
    requires { length line.now ≡ number_bytes * line_size }
    ensures { result ≡ line_at (int32s line.now) 0 }
{
    let mut numbers = [0i32; LINE_SIZE];
    decode_i32(line, &mut numbers);
    line_at(&numbers, 0)
}

// Refusal 2 of a line behind so many lines.
fn broken_line(count: usize) -> i64
    requires { count < refusal_unit }
    ensures { result ≡ broken_line_lem count }
{
    refusal_code(Refusal::BrokenLength) - count as i64
}

// Do these bytes show that every solution of this list of n variables meets this line?
pub fn utvpi_check_shown(n: u64, list: &[u8], line: &[u8], showing: &[u8]) -> i64
    ensures { result ≡ check_shown_lem n list.now line.now showing.now }
{
    let variables = n as usize;
    let mut numbers = [0i32; MOST_NUMBERS];
    if let Err(refusal) = decode_list(variables, list, &mut numbers) {
        return refusal_code(refusal);
    }
    if line.len() != LINE_BYTES {
        return broken_line(list.len() / LINE_BYTES);
    }
    let count = list.len() / NUMBER_BYTES;
    check_code(showing_of_numbers(variables, &numbers[..count], decode_line(line), showing))
}
