// Walks over a list of steps and the rows of their least sums: definitions and laws, no code.

#![tactic(auto)]
