// Tightened distances, the model, the bounds and the groups that they give: definitions and laws, no code.

#![tactic(auto)]
