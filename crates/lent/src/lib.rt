// Lists that a C caller lends as bytes, decoded into arrays; how long these are; and the word that a call returns.
#![tactic(auto)]

pub mod few;
pub mod lists;
pub mod nets;
pub mod plans;
pub mod word;
