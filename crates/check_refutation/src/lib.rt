// The refutation checker: one pass over the numbers of a refutation (the field's term: a certificate), each read once.
// It knows nothing of how a refutation is found.

#![tactic(auto)]

ghost use Rattle.std.specs.Prelude.{◌≡◌, cond, ◌&&◌, ◌<◌, ◌≤◌, ◌+ℤ◌, pos, length};
ghost use Rattle.std.specs.Int.Signed.{lt_z};
ghost use Rattle.integers.specs.Integer.{Within, half};
ghost use Rattle.lines.specs.Limits.{max_variables, max_refutation};
ghost use Rattle.lines.specs.Valid.{LinesOk};
ghost use Rattle.steps.specs.Step.{max_weight, NamedOk};
ghost use Rattle.check_refutation.specs.Progress.{head_size, start, counts_ok_lem, head_on, is_false_step_lem, only_if_lem, joins, turns, along, advance, run, closes, accepted, kind_ok_lem, broken_at_lem};
ghost use Rattle.check_refutation.specs.Small.{Small};
ghost use Rattle.check_refutation.specs.Answer.{verdict, refutation_answer};

use check_answers::CheckAnswer;
use integers::halved;
use lines::limits::{LINE_SIZE, MAX_REFUTATION};
use lines::{Refusal, is_false, line_at, list_validity};
use steps::{Step, opposite_of, step_numbered};

// The numbers before the steps: kind, first count, second count.
pub const HEAD_SIZE: usize = 3;

// The kinds: a closed walk, a walk to the opposite point and one back, a false line.
pub const CLOSED: usize = 1;

pub const THERE_AND_BACK: usize = 2;

pub const FALSE_LINE: usize = 3;

// What is kept between two numbers: how many were read; the head; where the first walk began and where the walk is; the
// sums of the first and of the second walk; whether nothing was wrong so far, and the index of the first wrong step
// number. In kind 2 the second walk goes on where the first ended, so that both are one walk that turns round after p
// steps.
#[derive(Clone, Copy)]
pub struct Progress {
    pub read: usize,
    pub kind: usize,
    pub p: usize,
    pub q: usize,
    pub u: usize,
    pub here: usize,
    pub first: i64,
    pub second: i64,
    pub good: bool,
    pub wrong: usize,
}

// Whether a kind is one of the three.
fn kind_ok(kind: usize) -> bool
    ensures { result ≡ kind_ok_lem kind }
{
    matches!(kind, CLOSED..=FALSE_LINE)
}

// Whether the counts suit the kind.
#[tactic(auto, unfolding(crate::specs::Progress::counts_ok_lem))]
fn counts_ok(kind: usize, p: usize, q: usize) -> bool
    ensures { result ≡ counts_ok_lem kind p q }
{
    match kind {
        CLOSED => 0 < p && q == 0,
        THERE_AND_BACK => 0 < p && 0 < q,
        FALSE_LINE => p == 1 && q == 0,
        _ => false,
    }
}

// Whether a number is twice the number of a false line.
#[tactic(auto, unfolding(crate::specs::Progress::is_false_step_lem))]
fn is_false_step(list: &[i32], number: usize) -> bool
    ensures { result ≡ is_false_step_lem list.now number }
{
    number % 2 == 0 && number / 2 < list.len() / LINE_SIZE && is_false(line_at(list, number / 2))
}

// a where the test holds, else b.
fn choose<T: Copy>(test: bool, a: T, b: T) -> T
    ensures { result ≡ cond test a b }
{
    if test { a } else { b }
}

impl Progress {
    // Nothing was read.
    pub fn new() -> Self
        ensures { result ≡ start }
    {
        Progress {
            read: 0,
            kind: 0,
            p: 0,
            q: 0,
            u: 0,
            here: 0,
            first: 0,
            second: 0,
            good: true,
            wrong: 0,
        }
    }

    // A number of the head: kind, p or q.
    #[tactic(auto, unfolding(crate::specs::Progress::head_on))]
    fn take_head(self, number: usize) -> Self
        requires { self.read < head_size }
        ensures { result ≡ head_on self number }
    {
        let read = self.read + 1;
        match self.read {
            0 => Progress {
                read,
                kind: number,
                ..self
            },
            1 => Progress {
                read,
                p: number,
                ..self
            },
            _ => Progress {
                read,
                q: number,
                good: self.good && counts_ok(self.kind, self.p, number),
                ..self
            },
        }
    }

    // The same progress with one more thing that has to hold.
    #[tactic(auto, unfolding(crate::specs::Progress::wrong_after))]
    pub fn only_if(self, holds: bool) -> Self
        requires { self.read < max_refutation }
        ensures { result ≡ only_if_lem self holds }
    {
        let first_wrong = self.good && !holds;
        Progress {
            read: self.read + 1,
            good: self.good && holds,
            wrong: if first_wrong { self.read } else { self.wrong },
            ..self
        }
    }

    // Whether a step starts where the walk is; the first step may start anywhere.
    #[tactic(auto, unfolding(crate::specs::Progress::joins))]
    fn joins_with(self, from: usize) -> bool
        ensures { result ≡ joins self from }
    {
        self.read == HEAD_SIZE || from == self.here
    }

    // Whether the walk is where it has to be after a step: at the opposite of u where the first of two walks ends.
    #[tactic(auto, unfolding(crate::specs::Progress::turns))]
    fn turns_at(self, u: usize, to: usize) -> bool
        requires { Small max_weight self }
        ensures { result ≡ turns self u to }
    {
        let turns_here = self.kind == THERE_AND_BACK && self.read + 1 == HEAD_SIZE + self.p;
        !turns_here || to == opposite_of(u)
    }

    // Whether a step goes on with the walk from u.
    fn goes_on(self, u: usize, t: Step) -> bool
        requires { Small max_weight self }
        ensures { result ≡ (joins self t.from && turns self u t.to) }
    {
        self.joins_with(t.from) && self.turns_at(u, t.to)
    }

    // One step more.
    #[tactic(auto, unfolding(crate::specs::Progress::along))]
    fn go_along(self, t: Step) -> Self
        requires { Small max_weight self × (self.read < max_refutation) × Within max_weight t.weight }
        ensures { result ≡ along self t }
    {
        let is_first = self.read < HEAD_SIZE + self.p;
        let u = choose(self.read == HEAD_SIZE, t.from, self.u);
        let next = self.only_if(self.goes_on(u, t));
        Progress {
            u,
            here: t.to,
            first: self.first + choose(is_first, t.weight, 0),
            second: self.second + choose(is_first, 0, t.weight),
            ..next
        }
    }

    // One number more. It is lent the list and that number alone.
    #[tactic(auto, unfolding(crate::specs::Progress::advance))]
    pub fn take(self, list: &[i32], number: u32) -> Self
        requires { NamedOk max_variables list.now number × Small max_weight self × (self.read < max_refutation) }
        ensures { result ≡ advance list.now self number }
    {
        let number = number as usize;
        if self.read < HEAD_SIZE {
            return self.take_head(number);
        }
        if self.kind == FALSE_LINE {
            return self.only_if(is_false_step(list, number));
        }
        match step_numbered(list, number) {
            Some(t) => self.go_along(t),
            None => self.only_if(false),
        }
    }

    // Whether the halves of the sums, rounded toward minus infinity, sum below 0.
    fn halves_low(self) -> bool
        requires { Small max_weight self }
        ensures { result ≡ lt_z (half self.first +ℤ half self.second) (pos 0) }
    {
        halved(self.first) + halved(self.second) < 0
    }

    // Whether the walk is closed and its sums are low enough.
    #[tactic(auto, unfolding(crate::specs::Progress::closes))]
    fn closes_low(self) -> bool
        requires { Small max_weight self }
        ensures { result ≡ closes self }
    {
        let closed = self.here == self.u;
        match self.kind {
            FALSE_LINE => true,
            CLOSED => closed && self.first < 0,
            _ => closed && self.halves_low(),
        }
    }

    // Whether what was read is a refutation.
    #[tactic(auto, unfolding(crate::specs::Progress::accepted))]
    fn is_accepted(self) -> bool
        requires { Small max_weight self }
        ensures { result ≡ accepted self }
    {
        self.good && self.read == HEAD_SIZE + self.p + self.q && self.closes_low()
    }

    // Where what was read breaks, if it is no refutation.
    #[tactic(auto, unfolding(crate::specs::Progress::broken_at_lem))]
    fn broken_at(self) -> usize
        requires { Small max_weight self }
        ensures { result ≡ broken_at_lem self }
    {
        if self.read < HEAD_SIZE || !kind_ok(self.kind) {
            return 0;
        }
        if !counts_ok(self.kind, self.p, self.q) {
            return 1;
        }
        if self.read != HEAD_SIZE + self.p + self.q {
            return 2;
        }
        if self.good { self.read - 1 } else { self.wrong }
    }

    // Yes, or no with the place where what was read breaks.
    #[tactic(auto, unfolding(crate::specs::Answer::verdict))]
    pub fn judge(self) -> CheckAnswer
        requires { Small max_weight self }
        ensures { result ≡ verdict self }
    {
        if self.is_accepted() {
            CheckAnswer::Yes
        } else {
            CheckAnswer::No(self.broken_at())
        }
    }
}

// The progress after all numbers of a refutation.
pub fn read_all(list: &[i32], refutation: &[u32]) -> Progress
    requires { LinesOk max_variables list.now × (length refutation.now ≤ max_refutation) }
    ensures { (result ≡ run list.now start refutation.now) × Small max_weight result }
{
    let mut progress = Progress::new();
    for &number in refutation {
        progress = progress.take(list, number);
    }
    progress
}

// The list's refusals, then 11, then yes, or no with the place where the refutation breaks.
#[tactic(auto, unfolding(crate::specs::Answer::refutation_answer, crate::specs::Answer::refutation_validity))]
pub fn check_refutation(n: usize, list: &[i32], refutation: &[u32]) -> Result<CheckAnswer, Refusal>
    ensures { result ≡ refutation_answer n list.now refutation.now }
{
    list_validity(n, list)?;
    if MAX_REFUTATION < refutation.len() {
        return Err(Refusal::LongRefutation);
    }
    Ok(read_all(list, refutation).judge())
}
