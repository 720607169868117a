// The calls on byte lists that make a plan or a product or check a plan: numbers are decoded into arrays, the proved
// call is made, its answer is stored.
#![tactic(auto)]

pub mod check;
pub mod planning;
pub mod product;
