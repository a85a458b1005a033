// What deciding answers, as definitions, and what they mean: mathematics, no code.

#![tactic(auto)]
