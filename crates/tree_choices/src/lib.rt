// Choices of a tree, by their tree: the lines that a choice picks get a flag.

#![tactic(auto)]

ghost use Rattle.std.specs.Prelude.{◌≡◌, ◌/◌, ◌%◌, set};
ghost use Rattle.tree_reading.specs.declared.Kind.TheVariants.{AllOf, AnyOf};
ghost use Rattle.tree_reading.specs.Tree.{max_depth};
ghost use Rattle.tree_choices.specs.Choosing.{marked, chosen, choice_of};

use tree_reading::{
    Head, Kind, MAX_DEPTH, Node, TreeRefusal, as_index, head_at, read_all_of, read_any_of,
    valid_tree,
};

// A quotient and a remainder; by zero they are zero and the number itself.
fn quotient(a: usize, b: usize) -> usize
    ensures { result ≡ a / b }
{
    a.checked_div(b).unwrap_or(0)
}

fn remainder(a: usize, b: usize) -> usize
    ensures { result ≡ a % b }
{
    a.checked_rem(b).unwrap_or(a)
}

// The line is picked, if there is a flag for it.
fn pick(picked: &mut [u8], line: usize)
    ensures { picked.new ≡ set picked.old line 1 }
{
    if line < picked.len() {
        picked[line] = 1;
    }
}

// Marks the lines of a choice of the line or all-of at `at`, which has `total` choices: the last child changes fastest.
#[cycle(choose_all_of_choose_any_of)]
fn choose_all_of(
    tree: &[u32],
    lines: usize,
    depth: usize,
    at: usize,
    total: usize,
    choice: usize,
    picked: &mut [u8],
)
    ensures { picked.new ≡ marked picked.old (chosen tree.now lines depth AllOf at total choice) }
{
    match head_at(tree, lines, depth, Kind::AllOf, at) {
        Err(_) => {}
        Ok(Head::Line) => pick(picked, as_index(tree[at + 1])),
        Ok(Head::Children(count)) => {
            let mut from = at + 2;
            let mut rest = total;
            let mut nth = choice;
            for _ in 0..count {
                let Ok(child) = read_any_of(tree, lines, depth - 1, from) else {
                    return;
                };
                rest = quotient(rest, child.choices);
                let part = quotient(nth, rest);
                choose_any_of(tree, lines, depth - 1, from, child.choices, part, picked);
                nth = remainder(nth, rest);
                from = child.end;
            }
        }
    }
}

// Marks the lines of a choice of the line or any-of at `at`: the branches' choices one behind the other.
#[cycle(choose_all_of_choose_any_of)]
fn choose_any_of(
    tree: &[u32],
    lines: usize,
    depth: usize,
    at: usize,
    total: usize,
    choice: usize,
    picked: &mut [u8],
)
    ensures { picked.new ≡ marked picked.old (chosen tree.now lines depth AnyOf at total choice) }
{
    match head_at(tree, lines, depth, Kind::AnyOf, at) {
        Err(_) => {}
        Ok(Head::Line) => pick(picked, as_index(tree[at + 1])),
        Ok(Head::Children(count)) => {
            let mut from = at + 2;
            let mut nth = choice;
            for _ in 0..count {
                let Ok(child) = read_all_of(tree, lines, depth - 1, from) else {
                    return;
                };
                if nth < child.choices {
                    choose_all_of(tree, lines, depth - 1, from, child.choices, nth, picked);
                    return;
                }
                nth -= child.choices;
                from = child.end;
            }
        }
    }
}

// Marks the lines that a choice of the whole tree picks; `total` is its number of choices.
pub fn choose(tree: &[u32], lines: usize, total: usize, choice: usize, picked: &mut [u8])
    ensures { picked.new ≡ marked picked.old (chosen tree.now lines max_depth AllOf 0 total choice) }
{
    choose_all_of(tree, lines, MAX_DEPTH, 0, total, choice, picked);
}

// The root of a tree that has a choice with this number: all refusals of the tree, then 43.
#[tactic(auto, unfolding(crate::specs::Choosing::choice_of))]
pub fn choice_in_tree(tree: &[u32], lines: usize, choice: usize) -> Result<Node, TreeRefusal>
    ensures { result ≡ choice_of tree.now lines choice }
{
    let root = valid_tree(tree, lines)?;
    if choice >= root.choices {
        return Err(TreeRefusal::NoSuchChoice);
    }
    Ok(root)
}
