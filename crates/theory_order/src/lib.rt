// Lines in another order: what stays with them. Mathematics, no code.

#![tactic(auto)]
