// The calls on byte lists that read and write the text of a matrix: numbers are decoded into arrays, the proved call is
// made, its answer is stored.
#![tactic(auto)]

pub mod read;
pub mod write;
