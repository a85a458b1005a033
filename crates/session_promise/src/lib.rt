// The promise of a session's calls, and what it is at the states that sequences of calls lead to. Mathematics, no code.

#![tactic(auto)]
