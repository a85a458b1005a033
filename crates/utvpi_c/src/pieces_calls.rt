// The exported check of a refutation that arrives in pieces: begin, take its numbers one after another, and end. What lies
// between two of them C keeps.
ghost use Rattle.std.specs.Prelude.{◌≡◌};
ghost use Rattle.c_pieces.specs.Pieces.{refutation_begin, refutation_take, refutation_end};

use c_pieces::Kept;

// Begins the check of a refutation that arrives in pieces.
#[unsafe(no_mangle)]
pub extern "C" fn utvpi_refutation_begin() -> Kept
    ensures { result ≡ refutation_begin }
{
    c_pieces::utvpi_refutation_begin()
}

// Takes one number more. It is lent the list and that number alone.
#[unsafe(no_mangle)]
pub extern "C" fn utvpi_refutation_take(kept: Kept, list: &[i32], number: u32) -> Kept
    ensures { result ≡ refutation_take list.now kept number }
{
    c_pieces::utvpi_refutation_take(kept, list, number)
}

// Do the numbers taken show that no whole numbers meet this list of n variables?
#[unsafe(no_mangle)]
pub extern "C" fn utvpi_refutation_end(kept: Kept, n: u64, list: &[i32]) -> i64
    ensures { result ≡ refutation_end n list.now kept }
{
    c_pieces::utvpi_refutation_end(kept, n, list)
}
