// What the answers to a tree are, as definitions, and what they mean: mathematics, no code.

#![tactic(auto)]
