// The first choice with a solution, of a tree over the lines of a list: one choice is tried after the other.

#![tactic(auto)]

ghost use Rattle.std.specs.Prelude.{◌<◌};
ghost use Rattle.tree_deciding.specs.Answer.{tree_over, AnswersFirst};
ghost use Rattle.tree_first.specs.Tried.{TryAsked, Tried, FirstTried};

use decide::refuted_or_modelled;
use decide_buffers::{Lengths, MOST_REFUTATION, clear, model_validity, work_room};
use lines::limits::LINE_SIZE;
use lines::list_validity;
use tree_deciding::ConditionRefusal;
use tree_lists::{MOST_NUMBERS, write_choice};
use tree_reading::valid_tree;

// Whether a choice has a solution. If so, its model is written.
fn try_choice(
    n: usize,
    list: &[i32],
    tree: &[u32],
    total: usize,
    choice: usize,
    model: &mut [i32],
    work: &mut [i64],
) -> bool
    requires { TryAsked n list.now tree.now total model.old work.old × (choice < total) }
    ensures { Tried n list.now (tree_over list.now tree.now) choice model.old work.old result model.new work.new }
{
    let mut chosen = [0i32; MOST_NUMBERS];
    write_choice(list, tree, total, choice, &mut chosen);
    let mut refutation = [0; MOST_REFUTATION];
    !refuted_or_modelled(&chosen[..list.len()], n, model, &mut refutation, work)
}

// The first choice with a solution, whose model is written, or the number of choices if there is none.
fn first_solvable(
    n: usize,
    list: &[i32],
    tree: &[u32],
    total: usize,
    model: &mut [i32],
    work: &mut [i64],
) -> usize
    requires { TryAsked n list.now tree.now total model.old work.old }
    ensures { FirstTried n list.now (tree_over list.now tree.now) model.old work.old result model.new work.new }
{
    for choice in 0..total {
        if try_choice(n, list, tree, total, choice, model, work) {
            return choice;
        }
    }
    total
}

// The first choice with a solution, of a tree over the lines of this list of n variables. Only a yes writes the model.
pub fn first_choice(
    n: usize,
    list: &[i32],
    tree: &[u32],
    model: &mut [i32],
    work: &mut [i64],
) -> Result<Option<usize>, ConditionRefusal>
    ensures { AnswersFirst n list.now tree.now result
        (record { model = model.old; work = work.old })
        (record { model = model.new; work = work.new }) }
{
    list_validity(n, list)?;
    let root = valid_tree(tree, list.len() / LINE_SIZE)?;
    model_validity(n, Lengths::of_model(model.len(), work.len()))?;
    let choice = first_solvable(n, list, tree, root.choices, model, work);
    clear(work, work_room(n));
    if choice < root.choices {
        return Ok(Some(choice));
    }
    Ok(None)
}
