// Of two refutations of one list, which anybody may have proposed: the shorter one that the checker accepts, handed back
// as a part of the slice that was lent. Everything is only read.

#![tactic(auto)]

ghost use Rattle.std.specs.Prelude.{◌≡◌};
ghost use Rattle.check_shorter.specs.Shorter.{accepted_length_lem, part_by_lengths_lem, shorter_part_lem, slice, shorter_slice};

use check_answers::CheckAnswer;
use check_refutation::{HEAD_SIZE, check_refutation};

// What is handed back: so many numbers from the front of the first slice, or of the second; or no numbers.
#[derive(Clone, Copy)]
pub enum Part {
    OfFirst(usize),
    OfSecond(usize),
    Empty,
}

// How many numbers the refutation at the front of a slice has, 3 + p + q, where they are there and accepted; else 0.
// The sum is exact: it may be far beyond the slice, and never wraps.
#[tactic(auto, using(crate::specs::Laws::too_short), unfolding(crate::specs::Shorter::accepted_length_lem))]
fn accepted_length(n: usize, list: &[i32], lent: &[u32]) -> usize
    ensures { result ≡ accepted_length_lem n list.now lent.now }
{
    if lent.len() < HEAD_SIZE {
        return 0;
    }
    let length = HEAD_SIZE + (lent[1] as usize + lent[2] as usize);
    if lent.len() < length {
        return 0;
    }
    match check_refutation(n, list, &lent[..length]) {
        Ok(CheckAnswer::Yes) => length,
        _ => 0,
    }
}

// The shorter of two, by their lengths, where 0 says that one is not accepted; the first when they tie.
#[tactic(auto, unfolding(crate::specs::Shorter::part_by_lengths_lem))]
fn part_by_lengths(first: usize, second: usize) -> Part
    ensures { result ≡ part_by_lengths_lem first second }
{
    if 0 < second && (first == 0 || second < first) {
        Part::OfSecond(second)
    } else if 0 < first {
        Part::OfFirst(first)
    } else {
        Part::Empty
    }
}

// Which part is handed back.
#[tactic(auto, unfolding(crate::specs::Shorter::shorter_part_lem))]
pub fn shorter_part(n: usize, list: &[i32], first: &[u32], second: &[u32]) -> Part
    ensures { result ≡ shorter_part_lem n list.now first.now second.now }
{
    let of_first = accepted_length(n, list, first);
    let of_second = accepted_length(n, list, second);
    part_by_lengths(of_first, of_second)
}

// The shorter accepted refutation, as a part of the slice that it came from; the first when they tie. An empty part
// where neither is accepted or the list is refused.
pub fn shorter<'a>(n: usize, list: &[i32], first: &'a [u32], second: &'a [u32]) -> &'a [u32]
    ensures { slice result.ref_ptr result.now ≡ shorter_slice n list.now (slice first.entry.ref_ptr first.now) (slice second.entry.ref_ptr second.now) }
{
    match shorter_part(n, list, first, second) {
        Part::OfFirst(length) => &first[..length],
        Part::OfSecond(length) => &second[..length],
        Part::Empty => &first[..0],
    }
}
