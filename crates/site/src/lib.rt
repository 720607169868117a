// The calls for a kept force list on byte lists: numbers are decoded into arrays, the proved call is made, and what it
// changed is stored. The arrays have fixed sizes, since there is no heap.
#![tactic(auto)]

pub mod entry;
pub mod movement;
