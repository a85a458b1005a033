// Steps that stand for others, merged or with their points renamed, and potentials: definitions and laws, no code.

#![tactic(auto)]
