// One more step, or a line's two, in the distances of a list of steps: definitions and laws, no code.

#![tactic(auto)]
