// The lent buffers of deciding: the room that each needs, refusals 7 and 8, and the clearing of the work area.

#![tactic(auto)]

ghost use Rattle.std.specs.Prelude.{◌≡◌, ◌++◌, ◌+◌, ◌*◌, ◌≤◌, pos, length, drop, replicate};
ghost use Rattle.lines.specs.Limits.{max_variables};
ghost use Rattle.decide_buffers.specs.Room.{model_room_lem, bounds_room_lem, groups_room_lem, refutation_room_lem, identifiers_room_lem, work_room_lem, differences_work_room_lem, model_lengths, model_rooms, lent_rooms_by, first_short, decide_validity_lem};

use lines::limits::MAX_VARIABLES;
use lines::{Refusal, list_validity};

// How long each of the lent buffers is.
#[derive(Clone, Copy)]
pub struct Lengths {
    pub model: usize,
    pub bounds: usize,
    pub groups: usize,
    pub refutation: usize,
    pub identifiers: usize,
    pub work: usize,
}

impl Lengths {
    // Where deciding is asked for no more than a model: the other buffers have no number.
    pub fn of_model(model: usize, work: usize) -> Lengths
        ensures { result ≡ model_lengths model work }
    {
        Lengths {
            model,
            bounds: 0,
            groups: 0,
            refutation: 0,
            identifiers: 0,
            work,
        }
    }
}

// The numbers of a room for each variable, for each pair of variables, and besides.
const MODEL_EACH: usize = 1;

const BOUNDS_EACH: usize = 2;

const GROUPS_EACH: usize = 2;

const REFUTATION_EACH: usize = 4;

const REFUTATION_MORE: usize = 4;

const IDENTIFIERS_EACH: usize = 4;

const IDENTIFIERS_MORE: usize = 4;

const WORK_PAIR: usize = 16;

const WORK_EACH: usize = 64;

const WORK_MORE: usize = 64;

const DIFFERENCES_PAIR: usize = 2;

const DIFFERENCES_EACH: usize = 16;

const DIFFERENCES_MORE: usize = 16;
// The rooms as constants, for arrays that are lent for so few variables: no function gives an array's length.
pub const FEW_VARIABLES: usize = 16;

pub const FEW_MODEL: usize = MODEL_EACH * FEW_VARIABLES;

pub const FEW_BOUNDS: usize = BOUNDS_EACH * FEW_VARIABLES;

pub const FEW_GROUPS: usize = GROUPS_EACH * FEW_VARIABLES;

pub const FEW_REFUTATION: usize = REFUTATION_EACH * FEW_VARIABLES + REFUTATION_MORE;

pub const FEW_IDENTIFIERS: usize = IDENTIFIERS_EACH * FEW_VARIABLES + IDENTIFIERS_MORE;

pub const FEW_WORK: usize = WORK_PAIR * FEW_VARIABLES * FEW_VARIABLES
    + WORK_EACH * FEW_VARIABLES
    + WORK_MORE;

// The room for a refutation of the most variables, for an array that is lent where none is asked for.
pub const MOST_REFUTATION: usize = REFUTATION_EACH * MAX_VARIABLES + REFUTATION_MORE;

// The room for the model.
pub fn model_room(n: usize) -> usize
    requires { n ≤ max_variables }
    ensures { result ≡ model_room_lem n }
{
    MODEL_EACH * n
}

// The room for the bounds.
pub fn bounds_room(n: usize) -> usize
    requires { n ≤ max_variables }
    ensures { result ≡ bounds_room_lem n }
{
    BOUNDS_EACH * n
}

// The room for the groups.
pub fn groups_room(n: usize) -> usize
    requires { n ≤ max_variables }
    ensures { result ≡ groups_room_lem n }
{
    GROUPS_EACH * n
}

// The room for a refutation.
pub fn refutation_room(n: usize) -> usize
    requires { n ≤ max_variables }
    ensures { result ≡ refutation_room_lem n }
{
    REFUTATION_EACH * n + REFUTATION_MORE
}

// The room for the identifiers of a refutation's steps.
pub fn identifiers_room(n: usize) -> usize
    requires { n ≤ max_variables }
    ensures { result ≡ identifiers_room_lem n }
{
    IDENTIFIERS_EACH * n + IDENTIFIERS_MORE
}

// The named part of the work area.
pub fn work_room(n: usize) -> usize
    requires { n ≤ max_variables }
    ensures { result ≡ work_room_lem n }
{
    WORK_PAIR * n * n + WORK_EACH * n + WORK_MORE
}

// The same of the engine for differences.
pub fn differences_work_room(n: usize) -> usize
    requires { n ≤ max_variables }
    ensures { result ≡ differences_work_room_lem n }
{
    DIFFERENCES_PAIR * n * n + DIFFERENCES_EACH * n + DIFFERENCES_MORE
}

// Refusals 7 and 8: the first buffer that is too short, of those for output with its place. The work area needs `room`.
pub fn rooms_validity(n: usize, lengths: Lengths, room: usize) -> Result<(), Refusal>
    requires { n ≤ max_variables }
    ensures { result ≡ first_short (lent_rooms_by (λ _. room)) n lengths }
{
    if lengths.model < model_room(n) {
        return Err(Refusal::ShortOutput(1));
    }
    if lengths.bounds < bounds_room(n) {
        return Err(Refusal::ShortOutput(2));
    }
    if lengths.groups < groups_room(n) {
        return Err(Refusal::ShortOutput(3));
    }
    if lengths.refutation < refutation_room(n) {
        return Err(Refusal::ShortOutput(4));
    }
    if lengths.identifiers < identifiers_room(n) {
        return Err(Refusal::ShortOutput(5));
    }
    if lengths.work < room {
        return Err(Refusal::ShortWorkArea);
    }
    Ok(())
}

// The same where no more than a model is written: of the model, then of the work area.
pub fn model_validity(n: usize, lengths: Lengths) -> Result<(), Refusal>
    requires { n ≤ max_variables }
    ensures { result ≡ first_short model_rooms n lengths }
{
    if lengths.model < model_room(n) {
        return Err(Refusal::ShortOutput(1));
    }
    if lengths.work < work_room(n) {
        return Err(Refusal::ShortWorkArea);
    }
    Ok(())
}

// The first refusal that applies: the list's, 7 and 8.
pub fn decide_validity(n: usize, list: &[i32], lengths: Lengths) -> Result<(), Refusal>
    ensures { result ≡ decide_validity_lem n list.now lengths }
{
    list_validity(n, list)?;
    rooms_validity(n, lengths, work_room(n))
}

// Zeros in the first room numbers.
pub fn clear(work: &mut [i64], room: usize)
    requires { room ≤ length work.old }
    ensures { work.new ≡ replicate room (pos 0) ++ drop room work.old }
{
    work[..room].fill(0);
}
