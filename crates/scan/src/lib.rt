// The bytes of a matrix text: their classes, the numbers in them, and entry lines.
#![tactic(auto)]

pub mod classes;
pub mod lines;
pub mod numbers;
