// What the refutation checker's rule means: the specification's three kinds exactly, nothing against a list with a solution, and a no where it says.

#![tactic(auto)]
