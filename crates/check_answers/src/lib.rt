// What both checkers answer: one type, its definitions and its laws, no code.

#![tactic(auto)]

use lines::Refusal;

// Of a model, No carries the number of the first line that fails; of a refutation, the place where it breaks.
#[derive(Clone, Copy)]
pub enum CheckAnswer {
    Yes,
    No(usize),
}
