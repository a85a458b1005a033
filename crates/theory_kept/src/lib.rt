// What stays of the answers when a line is added behind a list and both have a solution: the model, and the groups. Mathematics, no code.

#![tactic(auto)]
