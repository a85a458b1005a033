// The exported questions about a tree over the lines of a list, with lent buffers. Each answers a struct.

#![tactic(auto)]

ghost use Rattle.std.specs.Prelude.{◌≡◌};
ghost use Rattle.c_trees.specs.Calls.{choice_returned, FirstReturns, ChoiceReturns};

use c_codes::NO;
use tree_deciding::{ConditionRefusal, condition_number_and_place, decide_choice};
use tree_first::first_choice;

// The result where something is refused.
const REFUSED: i64 = -1;

// What C gets: the result, a refusal's number and place or 0 and 0, and the number of a choice.
#[repr(C)]
#[derive(Clone, Copy)]
pub struct CChoice {
    pub result: i64,
    pub refusal: u64,
    pub place: u64,
    pub choice: u64,
}

// The struct that an answer is returned as. A no has the number of the choice that was asked for, or 0.
fn choice_result(asked: u64, answer: Result<Option<usize>, ConditionRefusal>) -> CChoice
    ensures { result ≡ choice_returned asked answer }
{
    match answer {
        Ok(Some(k)) => CChoice {
            result: 0,
            refusal: 0,
            place: 0,
            choice: k as u64,
        },
        Ok(None) => CChoice {
            result: NO as i64,
            refusal: 0,
            place: 0,
            choice: asked,
        },
        Err(r) => {
            let numbered = condition_number_and_place(r);
            CChoice {
                result: REFUSED,
                refusal: numbered.number as u64,
                place: numbered.place as u64,
                choice: 0,
            }
        }
    }
}

// The first choice, of a tree over the lines of this list of n variables, that whole numbers meet: its number, and such
// numbers in the model.
#[tactic(auto, using(crate::specs::Laws::first_returns))]
pub fn utvpi_tree_first(
    n: u64,
    list: &[i32],
    tree: &[u32],
    model: &mut [i32],
    work: &mut [i64],
) -> CChoice
    ensures { FirstReturns n list.now tree.now result
        (record { model = model.old; work = work.old })
        (record { model = model.new; work = work.new }) }
{
    choice_result(0, first_choice(n as usize, list, tree, model, work))
}

// Decides the choice with this number, of a tree over the lines of this list of n variables.
#[tactic(auto, using(crate::specs::Laws::choice_returns))]
pub fn utvpi_tree_decide(
    n: u64,
    list: &[i32],
    tree: &[u32],
    choice: u64,
    model: &mut [i32],
    bounds: &mut [i64],
    groups: &mut [u32],
    refutation: &mut [u32],
    identifiers: &mut [u32],
    work: &mut [i64],
) -> CChoice
    ensures { ChoiceReturns n list.now tree.now choice result
        (record { model = model.old; bounds = bounds.old; groups = groups.old; refutation = refutation.old; identifiers = identifiers.old; work = work.old })
        (record { model = model.new; bounds = bounds.new; groups = groups.new; refutation = refutation.new; identifiers = identifiers.new; work = work.new }) }
{
    let answer = decide_choice(
        n as usize,
        list,
        tree,
        choice as usize,
        model,
        bounds,
        groups,
        refutation,
        identifiers,
        work,
    );
    choice_result(choice, answer)
}
