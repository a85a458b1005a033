// What the questions about a tree over the lines of a list answer; and the one of a choice by its number, which is decided
// as a list.

#![tactic(auto)]

ghost use Rattle.std.specs.Prelude.{◌≡◌};
ghost use Rattle.lines.specs.Valid.{ListOk};
ghost use Rattle.tree_lists.specs.Numbered.{numbered_list};
ghost use Rattle.tree_deciding.specs.declared.ConditionRefusal.TheVariants.{Deciding, Tree};
ghost use Rattle.tree_deciding.specs.Refusal.{condition_number, condition_place};
ghost use Rattle.tree_deciding.specs.Answer.{DecidesChoice};
ghost use Rattle.tree_deciding.specs.Choice.{DecidesListed};

use decide::{Answer, decide};
use lines::limits::LINE_SIZE;
use lines::{Numbered, Refusal, list_validity, number_and_place};
use tree_choices::choice_in_tree;
use tree_lists::{MOST_NUMBERS, write_choice};
use tree_reading::{TreeRefusal, tree_number_and_place};

// A refusal that deciding has too, of the list or of what is lent; or one of the tree.
#[derive(Clone, Copy)]
pub enum ConditionRefusal {
    Deciding(Refusal),
    Tree(TreeRefusal),
}

impl From<Refusal> for ConditionRefusal {
    ghost from_gives = { λ r e. e ≡ Deciding r };

    fn from(r: Refusal) -> ConditionRefusal {
        ConditionRefusal::Deciding(r)
    }
}

impl From<TreeRefusal> for ConditionRefusal {
    ghost from_gives = { λ r e. e ≡ Tree r };

    fn from(r: TreeRefusal) -> ConditionRefusal {
        ConditionRefusal::Tree(r)
    }
}

// The number and the place of each refusal.
pub fn condition_number_and_place(r: ConditionRefusal) -> Numbered
    ensures { (result.number ≡ condition_number r) × (result.place ≡ condition_place r) }
{
    match r {
        ConditionRefusal::Deciding(d) => number_and_place(d),
        ConditionRefusal::Tree(t) => tree_number_and_place(t),
    }
}

// Decides the list of a choice of a tree that has `total` choices. What it answers is an answer on the tree.
fn decide_listed(
    n: usize,
    list: &[i32],
    tree: &[u32],
    total: usize,
    choice: usize,
    model: &mut [i32],
    bounds: &mut [i64],
    groups: &mut [u32],
    refutation: &mut [u32],
    identifiers: &mut [u32],
    work: &mut [i64],
) -> Result<Option<usize>, ConditionRefusal>
    requires { ListOk n list.now }
    ensures { DecidesListed n (numbered_list tree.now list.now total choice) choice result
        (record { model = model.old; bounds = bounds.old; groups = groups.old; refutation = refutation.old; identifiers = identifiers.old; work = work.old })
        (record { model = model.new; bounds = bounds.new; groups = groups.new; refutation = refutation.new; identifiers = identifiers.new; work = work.new }) }
{
    let mut chosen = [0i32; MOST_NUMBERS];
    write_choice(list, tree, total, choice, &mut chosen);
    let answer = decide(
        n,
        &chosen[..list.len()],
        model,
        bounds,
        groups,
        refutation,
        identifiers,
        work,
    )?;
    match answer {
        Answer::Yes => Ok(Some(choice)),
        Answer::No => Ok(None),
    }
}

// Decides a choice of a tree over the lines of this list of n variables, as a list that has only the lines picked.
pub fn decide_choice(
    n: usize,
    list: &[i32],
    tree: &[u32],
    choice: usize,
    model: &mut [i32],
    bounds: &mut [i64],
    groups: &mut [u32],
    refutation: &mut [u32],
    identifiers: &mut [u32],
    work: &mut [i64],
) -> Result<Option<usize>, ConditionRefusal>
    ensures { DecidesChoice n list.now tree.now choice result
        (record { model = model.old; bounds = bounds.old; groups = groups.old; refutation = refutation.old; identifiers = identifiers.old; work = work.old })
        (record { model = model.new; bounds = bounds.new; groups = groups.new; refutation = refutation.new; identifiers = identifiers.new; work = work.new }) }
{
    list_validity(n, list)?;
    let root = choice_in_tree(tree, list.len() / LINE_SIZE, choice)?;
    decide_listed(
        n,
        list,
        tree,
        root.choices,
        choice,
        model,
        bounds,
        groups,
        refutation,
        identifiers,
        work,
    )
}
