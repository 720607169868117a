// The survey's call on byte lists: numbers are decoded into arrays, the proved call is made, its answer is stored. The
// arrays have fixed sizes, since there is no heap.
#![tactic(auto)]

pub mod reach;
