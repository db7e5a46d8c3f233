// The calls start, run and read_name on lent bytes: what each answers, and what every buffer holds afterwards, refused calls too. One file a call.
#![tactic(auto)]

pub mod read_call;
pub mod run_call;
pub mod start_call;
