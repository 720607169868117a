// Lists of numbers in byte slices, low byte first: loaded into slices of numbers, stored from them, or copied.
#![tactic(auto)]

pub mod copy;
pub mod lists;
pub mod word;
