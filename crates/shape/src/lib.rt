// The shape of a plan, whatever the matrix: its order, how its groups nest and how they tile.
#![tactic(auto)]

pub mod nesting;
pub mod order;
pub mod tiling;
