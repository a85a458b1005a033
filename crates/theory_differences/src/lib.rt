// Lists of differences over one point for each variable: what deciding answers for them, by walks between the variables
// alone; rows that begin with 0 everywhere, and tables closed through one point after the other. Mathematics, no code.

#![tactic(auto)]
