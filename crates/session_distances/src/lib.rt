// Whether each number of a table that may hold any is a distance, or stands for no walk.

#![tactic(auto)]

ghost use Rattle.std.specs.Prelude.{◌≡◌, length};
ghost use Rattle.integers.specs.Lowest.{first_failing_lem};
ghost use Rattle.session_distances.specs.Distances.{is_distance_lem, distance_at};

use session_step::read;

// Whether a number is a distance, or stands for no walk: it is read as it is.
fn is_distance(entry: i64) -> bool
    ensures { result ≡ is_distance_lem entry }
{
    read(entry) == entry
}

// The place of the first number that is no distance, or how many numbers there are.
#[tactic(auto, using(integers::proofs::Searching::searching))]
pub fn first_beyond(table: &[i64]) -> usize
    ensures { result ≡ first_failing_lem (length table.now) (distance_at table.now) }
{
    for i in 0..table.len() {
        if !is_distance(table[i]) {
            return i;
        }
    }
    table.len()
}
