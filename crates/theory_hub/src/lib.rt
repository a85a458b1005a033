// Lists with one hub: what their lines leave each variable, and their answers, without a table of distances.

#![tactic(auto)]
