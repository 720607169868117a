// The machine of a run: its state, picks taken one by one, and who is ready.
#![tactic(auto)]

pub mod ready;
pub mod state;
