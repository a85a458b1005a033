// The checkers and `shorter` called on buffers that are lent for writing: each answers what its definition says, and
// leaves every buffer as it was.

#![tactic(auto)]

ghost use Rattle.std.specs.Prelude.{◌≡◌, length};
ghost use Rattle.check_model.specs.Model.{model_answer};
ghost use Rattle.check_refutation.specs.Answer.{refutation_answer};
ghost use Rattle.check_shorter.specs.Shorter.{slice, shorter_slice};
ghost use Rattle.c_checking.specs.Calls.{check_model_lem, check_refutation_lem};
ghost use Rattle.c_shorter.specs.Calls.{shorter_returned};

use c_checking::{utvpi_check_model, utvpi_check_refutation};
use c_shorter::{CPart, utvpi_shorter};
use check_answers::CheckAnswer;
use check_model::check_model;
use check_refutation::check_refutation;
use check_shorter::shorter;
use lines::Refusal;

pub fn model_check_only_reads(
    n: usize,
    list: &mut [i32],
    model: &mut [i64],
) -> Result<CheckAnswer, Refusal>
    ensures answer { result ≡ model_answer n list.old model.old }
    ensures list_kept { list.new ≡ list.old }
    ensures model_kept { model.new ≡ model.old }
{
    check_model(n, list, model)
}

pub fn refutation_check_only_reads(
    n: usize,
    list: &mut [i32],
    refutation: &mut [u32],
) -> Result<CheckAnswer, Refusal>
    ensures answer { result ≡ refutation_answer n list.old refutation.old }
    ensures list_kept { list.new ≡ list.old }
    ensures refutation_kept { refutation.new ≡ refutation.old }
{
    check_refutation(n, list, refutation)
}

pub fn c_model_check_only_reads(n: u64, list: &mut [u8], model: &mut [u8]) -> i64
    ensures answer { result ≡ check_model_lem n list.old model.old }
    ensures list_kept { list.new ≡ list.old }
    ensures model_kept { model.new ≡ model.old }
{
    utvpi_check_model(n, list, model)
}

pub fn c_refutation_check_only_reads(n: u64, list: &mut [u8], refutation: &mut [u8]) -> i64
    ensures answer { result ≡ check_refutation_lem n list.old refutation.old }
    ensures list_kept { list.new ≡ list.old }
    ensures refutation_kept { refutation.new ≡ refutation.old }
{
    utvpi_check_refutation(n, list, refutation)
}

// Of the part that is handed back no more than its length is told: it ends with the loan of the buffers.
pub fn shorter_only_reads(
    n: usize,
    list: &mut [i32],
    first: &mut [u32],
    second: &mut [u32],
) -> usize
    ensures answer { result ≡ length (shorter_slice n list.old (slice first.entry.ref_ptr first.old) (slice second.entry.ref_ptr second.old)).numbers }
    ensures list_kept { list.new ≡ list.old }
    ensures first_kept { first.new ≡ first.old }
    ensures second_kept { second.new ≡ second.old }
{
    shorter(n, list, first, second).len()
}

pub fn c_shorter_only_reads(
    n: u64,
    list: &mut [i32],
    first: &mut [u32],
    second: &mut [u32],
) -> CPart
    ensures answer { result ≡ shorter_returned n list.old first.old second.old }
    ensures list_kept { list.new ≡ list.old }
    ensures first_kept { first.new ≡ first.old }
    ensures second_kept { second.new ≡ second.old }
{
    utvpi_shorter(n, list, first, second)
}
