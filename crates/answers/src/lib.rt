// What the calls on a run take and leave in byte lists: the state, the sums and forces, the word of an answer.
#![tactic(auto)]

pub mod bytes;
pub mod state;
pub mod stored;
pub mod word;
