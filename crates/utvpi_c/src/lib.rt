// What C links: each function that include/utvpi.h declares, with the promise of the function that it calls.

#![tactic(auto)]

mod check_shown_calls;
mod checking_calls;
mod deciding_calls;
mod differences_calls;
mod files_calls;
mod implied_calls;
mod implied_line_calls;
mod pieces_calls;
mod seconds_calls;
mod session_asked_calls;
mod session_calls;
mod shorter_calls;
mod show_line_calls;
mod trees_calls;
