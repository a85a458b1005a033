// The exported checks of a model and of a refutation, on bytes: four little-endian bytes to a number of a list or a refutation,
// eight to a value of a model. Each answers one number.

#![tactic(auto)]

ghost use Rattle.std.specs.Prelude.{◌≡◌, ◌≤◌};
ghost use Rattle.lines.specs.Limits.{max_variables};
ghost use Rattle.little_endian.specs.Bytes.{nat32s};
ghost use Rattle.check_refutation.specs.Progress.{start};
ghost use Rattle.check_pieces.specs.Taken.{take_all};
ghost use Rattle.check_pieces.specs.Cut.{Words};
ghost use Rattle.c_checking.specs.Calls.{model_of_values_lem, refutation_of_numbers_lem, model_of_bytes, refutation_of_bytes, check_model_lem, check_refutation_lem};

use c_codes::{MOST_NUMBERS, NUMBER_BYTES, check_code, decode_list};
use check_answers::CheckAnswer;
use check_model::check_model;
use check_pieces::{begin, end, take_on};
use check_refutation::Progress;
use lines::Refusal;
use lines::limits::{MAX_REFUTATION, MAX_VARIABLES};
use little_endian::{decode_i64, u32_at};

// The bytes of a value of a model.
const VALUE_BYTES: usize = 8;

// The answer on a model in bytes.
#[tactic(auto, unfolding(crate::specs::Calls::model_of_values_lem))]
fn model_of_values(n: usize, list: &[i32], model: &[u8]) -> Result<CheckAnswer, Refusal>
    requires { n ≤ max_variables }
    ensures { result ≡ model_of_values_lem n list.now model.now }
{
    if model.len() != VALUE_BYTES * n {
        return Err(Refusal::WrongModelLength);
    }
    let mut values = [0i64; MAX_VARIABLES];
    decode_i64(model, &mut values);
    check_model(n, list, &values[..n])
}

// What is kept after all whole numbers of a refutation in bytes, each taken as it is read.
fn take_bytes(list: &[i32], refutation: &[u8]) -> Progress
    ensures { (result ≡ take_all list.now start (nat32s refutation.now)) × Words (nat32s refutation.now) }
{
    let mut kept = begin();
    for i in 0..refutation.len() / NUMBER_BYTES {
        kept = take_on(kept, list, u32_at(refutation, NUMBER_BYTES * i));
    }
    kept
}

// The answer on a refutation in bytes.
#[tactic(auto, unfolding(crate::specs::Calls::refutation_of_numbers_lem))]
fn refutation_of_numbers(n: usize, list: &[i32], refutation: &[u8]) -> Result<CheckAnswer, Refusal>
    ensures { result ≡ refutation_of_numbers_lem n list.now refutation.now }
{
    if NUMBER_BYTES * MAX_REFUTATION < refutation.len() {
        return Err(Refusal::LongRefutation);
    }
    if refutation.len() % NUMBER_BYTES != 0 {
        return Ok(CheckAnswer::No(0));
    }
    end(take_bytes(list, refutation), n, list)
}

// The answer on a model where the list is bytes too: the list's refusals first.
#[tactic(auto, unfolding(crate::specs::Calls::model_of_bytes))]
fn model_of_bytes(n: usize, list: &[u8], model: &[u8]) -> Result<CheckAnswer, Refusal>
    ensures { result ≡ model_of_bytes n list.now model.now }
{
    let mut numbers = [0i32; MOST_NUMBERS];
    decode_list(n, list, &mut numbers)?;
    model_of_values(n, &numbers[..list.len() / NUMBER_BYTES], model)
}

// The same of a refutation.
#[tactic(auto, unfolding(crate::specs::Calls::refutation_of_bytes))]
fn refutation_of_bytes(n: usize, list: &[u8], refutation: &[u8]) -> Result<CheckAnswer, Refusal>
    ensures { result ≡ refutation_of_bytes n list.now refutation.now }
{
    let mut numbers = [0i32; MOST_NUMBERS];
    decode_list(n, list, &mut numbers)?;
    refutation_of_numbers(n, &numbers[..list.len() / NUMBER_BYTES], refutation)
}

// Does this model meet every line of this list of n variables?
#[tactic(auto, using(crate::specs::Laws::model_bytes_below))]
pub fn utvpi_check_model(n: u64, list: &[u8], model: &[u8]) -> i64
    ensures { result ≡ check_model_lem n list.now model.now }
{
    check_code(model_of_bytes(n as usize, list, model))
}

// Does this refutation show that no whole numbers meet this list of n variables?
#[tactic(auto, using(crate::specs::Laws::refutation_bytes_below))]
pub fn utvpi_check_refutation(n: u64, list: &[u8], refutation: &[u8]) -> i64
    ensures { result ≡ check_refutation_lem n list.now refutation.now }
{
    check_code(refutation_of_bytes(n as usize, list, refutation))
}
