// A symmetric matrix of whole numbers in full rows: what it is, its product with displacements, and its rows.
// Row i of n has its columns and values from starts[i] up to starts[i + 1].
#![tactic(auto)]

pub mod limits;
pub mod lists;
