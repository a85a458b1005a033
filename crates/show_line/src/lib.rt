// Showing a line: a refutation of the list against the line, where every solution of the list meets the line.

#![tactic(auto)]

ghost use Rattle.std.specs.Prelude.{◌≡◌, ◌≤◌};
ghost use Rattle.lines.specs.Limits.{max_variables};
ghost use Rattle.decide_buffers.specs.Room.{first_short};
ghost use Rattle.show_line.specs.Answer.{show_rooms, show_lengths, show_validity_lem, ShowsLine};
ghost use Rattle.show_line.specs.Found.{ShowAsked, ShowFound};

use decide::refuted;
use decide_buffers::{clear, identifiers_room, refutation_room, work_room};
use decide_identifiers::write_identifiers;
use lines::limits::LINE_SIZE;
use lines::{Line, Refusal, list_validity, shown_validity};
use longer_list::MOST_NUMBERS;
use shown_list::write_against;

// A showing is written, or some solution does not meet the line.
#[derive(Clone, Copy)]
pub enum ShowAnswer {
    Shown,
    NotShown,
}

// Refusals 7 and 8, by the lengths of the buffers.
fn rooms_validity(
    n: usize,
    refutation: usize,
    identifiers: usize,
    work: usize,
) -> Result<(), Refusal>
    requires { n ≤ max_variables }
    ensures { result ≡ first_short show_rooms n (show_lengths refutation identifiers work) }
{
    if refutation < refutation_room(n) {
        return Err(Refusal::ShortOutput(4));
    }
    if identifiers < identifiers_room(n) {
        return Err(Refusal::ShortOutput(5));
    }
    if work < work_room(n) {
        return Err(Refusal::ShortWorkArea);
    }
    Ok(())
}

// The first refusal that applies: the list's, the line's as if it stood behind the list, then 7 and 8. The buffers are
// given by their lengths.
#[tactic(auto, using(lines::specs::Valid::valid_list), unfolding(crate::specs::Answer::show_validity_lem))]
fn show_validity(
    n: usize,
    list: &[i32],
    line: Line,
    refutation: usize,
    identifiers: usize,
    work: usize,
) -> Result<(), Refusal>
    ensures { result ≡ show_validity_lem n list.now line (show_lengths refutation identifiers work) }
{
    list_validity(n, list)?;
    shown_validity(n, list.len() / LINE_SIZE, line)?;
    rooms_validity(n, refutation, identifiers, work)
}

// Whether the list against the line is refuted. If so, the showing and the identifiers of its steps are written.
fn found_shown(
    n: usize,
    list: &[i32],
    line: Line,
    refutation: &mut [u32],
    identifiers: &mut [u32],
    work: &mut [i64],
) -> bool
    requires { ShowAsked n list.now line refutation.old identifiers.old work.old }
    ensures { ShowFound n list.now line refutation.old identifiers.old work.old refutation.new identifiers.new work.new result }
{
    let mut against = [0i32; MOST_NUMBERS];
    write_against(list, line, &mut against);
    if refuted(&against, n, refutation, work) {
        write_identifiers(&against, refutation, identifiers);
        return true;
    }
    false
}

// Does every solution of this list of n variables meet the line? If so, a showing is written.
pub fn show_line(
    n: usize,
    list: &[i32],
    line: Line,
    refutation: &mut [u32],
    identifiers: &mut [u32],
    work: &mut [i64],
) -> Result<ShowAnswer, Refusal>
    ensures { ShowsLine n list.now line result
        (record { refutation = refutation.old; identifiers = identifiers.old; work = work.old })
        (record { refutation = refutation.new; identifiers = identifiers.new; work = work.new }) }
{
    show_validity(
        n,
        list,
        line,
        refutation.len(),
        identifiers.len(),
        work.len(),
    )?;
    let shown = found_shown(n, list, line, refutation, identifiers, work);
    clear(work, work_room(n));
    if shown {
        return Ok(ShowAnswer::Shown);
    }
    Ok(ShowAnswer::NotShown)
}
