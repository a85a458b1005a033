// What is known of the lines of a session: their table of distances, and behind it their model and groups. What it becomes
// with one line more, or made anew from a list, and how the outputs are given of it. It may hold any numbers.

#![tactic(auto)]

ghost use Rattle.std.specs.Prelude.{◌≡◌};
ghost use Rattle.lines.specs.Valid.{LinesOk};
ghost use Rattle.session_kept.specs.Kept.{Given};
ghost use Rattle.session_learn.specs.Learnt.{learns};
ghost use Rattle.session_state.specs.State.{table_of_known, kept_of_known};
ghost use Rattle.session_known.specs.Known.{Sized, LearnKnownReady, GiveKnownReady, known_after, known_anew_lem};

use lines::line_at;
use session_kept::{give, keeps_groups, keeps_model, renew};
use session_learn::learn_line;
use session_state::table_room;
use session_table::table_anew;

// Line k behind those that are known: yes, and what is known with it; or no, and all as it was. The model stays where it
// meets the line, and the groups where the line's steps are wide; what does not stay is read off the table anew.
#[tactic(auto, using(session_learn::specs::Learnt::learnt_no, crate::specs::Known::after_line, crate::specs::Known::after_no_line), unfolding(session_state::specs::State::known_room))]
pub fn learn_known(list: &[i32], k: usize, known: &mut [i64], n: usize) -> bool
    requires { LearnKnownReady n list.now k known.old }
    ensures { (result ≡ learns n list.now k (table_of_known n known.old)) × (known.new ≡ known_after n list.now k known.old) }
{
    let (table, kept) = known.split_at_mut(table_room(n));
    if !learn_line(list, k, table, n) {
        return false;
    }
    let model_stays = keeps_model(kept, n, line_at(list, k));
    let groups_stay = keeps_groups(list, k, table, n);
    renew(table, n, model_stays, groups_stay, kept);
    true
}

// What is known of a list, whatever was known before.
#[tactic(auto, unfolding(session_state::specs::State::known_room, crate::specs::Known::known_anew_lem))]
pub fn known_anew(list: &[i32], n: usize, known: &mut [i64])
    requires { Sized n known.old × LinesOk n list.now }
    ensures { known.new ≡ known_anew_lem n list.now known.old }
{
    let (table, kept) = known.split_at_mut(table_room(n));
    table_anew(list, n, table);
    renew(table, n, false, false, kept);
}

// The three outputs, each at the front of its list.
#[tactic(auto, unfolding(session_state::specs::State::known_room))]
pub fn give_known(
    known: &[i64],
    n: usize,
    model: &mut [i32],
    bounds: &mut [i64],
    groups: &mut [u32],
)
    requires { GiveKnownReady n known.now model.old bounds.old groups.old }
    ensures { Given n (table_of_known n known.now) (kept_of_known n known.now) model.old bounds.old groups.old model.new bounds.new groups.new }
{
    let (table, kept) = known.split_at(table_room(n));
    give(table, kept, n, model, bounds, groups);
}
