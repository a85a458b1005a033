// The list of a choice: the whole list, with zeros for each line that is not picked.

#![tactic(auto)]

ghost use Rattle.std.specs.Prelude.{◌≡◌, ◌++◌, ◌<◌, length, drop};
ghost use Rattle.tree_lists.specs.Masked.{is_picked_lem, masked_number_lem, masked_into};
ghost use Rattle.tree_lists.specs.Numbered.{numbered_list, ChoiceReady};

use lines::limits::{LINE_SIZE, MAX_LINES};
use tree_choices::choose;

// The numbers of the most lines.
pub const MOST_NUMBERS: usize = LINE_SIZE * MAX_LINES;

// Whether the line is picked; a line with no flag is not.
fn is_picked(picked: &[u8], line: usize) -> bool
    ensures { result ≡ is_picked_lem picked.now line }
{
    line < picked.len() && picked[line] == 1
}

// A number of a line, or zero if the line is not picked.
#[tactic(auto, unfolding(crate::specs::Masked::masked_number_lem))]
fn masked_number(list: &[i32], picked: &[u8], index: usize) -> i32
    requires { index < length list.now }
    ensures { result ≡ masked_number_lem picked.now list.now index }
{
    if is_picked(picked, index / LINE_SIZE) {
        list[index]
    } else {
        0
    }
}

// The list, with zeros for each line that is not picked, at the front of a buffer; one that is too short stays as it is.
#[tactic(auto, unfolding(crate::specs::Masked::masked_into))]
pub fn mask(list: &[i32], picked: &[u8], out: &mut [i32])
    ensures { out.new ≡ masked_into picked.now list.now out.old }
{
    if out.len() < list.len() {
        return;
    }
    for i in 0..list.len() {
        out[i] = masked_number(list, picked, i);
    }
}

// The list of a choice, by the choice's number in a tree that has `total` choices, at the front of a buffer.
pub fn write_choice(list: &[i32], tree: &[u32], total: usize, choice: usize, out: &mut [i32])
    requires { ChoiceReady list.now out.old }
    ensures { out.new ≡ numbered_list tree.now list.now total choice ++ drop (length list.now) out.old }
{
    let mut picked = [0u8; MAX_LINES];
    choose(tree, list.len() / LINE_SIZE, total, choice, &mut picked);
    mask(list, &picked, out);
}
