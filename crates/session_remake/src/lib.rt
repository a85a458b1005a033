// What is known of the lines of a state made anew from them without the last one.

#![tactic(auto)]

ghost use Rattle.std.specs.Prelude.{◌≡◌, true, ◌<◌, ◌≤◌, length};
ghost use Rattle.lines.specs.Limits.{max_variables};
ghost use Rattle.lines.specs.Valid.{LinesOk};
ghost use Rattle.session_known.specs.Known.{known_anew_lem};
ghost use Rattle.session_state.specs.State.{session_room_lem, variables_in, count_in, known_in, is_state_lem, with_known};
ghost use Rattle.session_remake.specs.Remade.{remade_known};

use lines::limits::LINE_SIZE;
use lines::list_validity;
use longer_list::MOST_NUMBERS;
use session_known::known_anew;
use session_state::{FRONT_ROOM, copy_lines, read_head, session_room};

// What is known of a list, in place of what the state has.
pub fn put_known(list: &[i32], n: usize, state: &mut [i64])
    requires { (n ≤ max_variables) × LinesOk n list.now × (session_room_lem n ≤ length state.old) }
    ensures { state.new ≡ with_known n state.old (known_anew_lem n list.now (known_in n state.old)) }
{
    let end = session_room(n);
    known_anew(list, n, &mut state[FRONT_ROOM..end]);
}

// What is known of the lines before the last, where these are valid; else the state is left as it is.
pub fn remake_known(state: &mut [i64])
    requires { (is_state_lem state.old ≡ true) × (0 < count_in state.old) }
    ensures { state.new ≡ with_known (variables_in state.old) state.old (remade_known state.old) }
{
    let mut list = [0i32; MOST_NUMBERS];
    copy_lines(state, &mut list);
    let head = read_head(state);
    let end = LINE_SIZE * (head.count - 1);
    let found = list_validity(head.n, &list[..end]);
    match found {
        Ok(()) => put_known(&list[..end], head.n, state),
        Err(_) => {}
    }
}
