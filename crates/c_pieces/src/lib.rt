// The exported check of a refutation that arrives in pieces: begin, take its numbers one after another, and end. What lies
// between two of them C keeps.

#![tactic(auto)]

ghost use Rattle.std.specs.Prelude.{◌≡◌};
ghost use Rattle.c_pieces.specs.Pieces.{progress_of_lem, kept_of_lem, refutation_begin, refutation_take, refutation_end};

use c_codes::check_code;
use check_pieces::{begin, end, take_on};
use check_refutation::Progress;

// What C keeps between two numbers of a refutation that arrives in pieces: the checker's own numbers. Every value of each
// is defined: the byte good is 1 as long as nothing was wrong, and any other number says that something was.
#[repr(C)]
#[derive(Clone, Copy)]
pub struct Kept {
    pub read: usize,
    pub kind: usize,
    pub p: usize,
    pub q: usize,
    pub u: usize,
    pub here: usize,
    pub first: i64,
    pub second: i64,
    pub good: u8,
    pub wrong: usize,
}

// The checker's state out of what C kept.
impl From<Kept> for Progress {
    ghost from_gives = { λ kept progress. progress ≡ progress_of_lem kept };

    fn from(kept: Kept) -> Progress {
        Progress {
            read: kept.read,
            kind: kept.kind,
            p: kept.p,
            q: kept.q,
            u: kept.u,
            here: kept.here,
            first: kept.first,
            second: kept.second,
            good: kept.good == 1,
            wrong: kept.wrong,
        }
    }
}

// What C keeps of the checker's state.
impl From<Progress> for Kept {
    ghost from_gives = { λ progress kept. kept ≡ kept_of_lem progress };

    fn from(progress: Progress) -> Kept {
        Kept {
            read: progress.read,
            kind: progress.kind,
            p: progress.p,
            q: progress.q,
            u: progress.u,
            here: progress.here,
            first: progress.first,
            second: progress.second,
            good: u8::from(progress.good),
            wrong: progress.wrong,
        }
    }
}

// Begins the check of a refutation that arrives in pieces.
pub fn utvpi_refutation_begin() -> Kept
    ensures { result ≡ refutation_begin }
{
    Kept::from(begin())
}

// Takes one number more. It is lent the list and that number alone.
pub fn utvpi_refutation_take(kept: Kept, list: &[i32], number: u32) -> Kept
    ensures { result ≡ refutation_take list.now kept number }
{
    Kept::from(take_on(Progress::from(kept), list, number))
}

// Do the numbers taken show that no whole numbers meet this list of n variables?
#[tactic(auto, using(crate::specs::Laws::end_below))]
pub fn utvpi_refutation_end(kept: Kept, n: u64, list: &[i32]) -> i64
    ensures { result ≡ refutation_end n list.now kept }
{
    check_code(end(Progress::from(kept), n as usize, list))
}
