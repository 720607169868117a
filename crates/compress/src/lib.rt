// Entries in any order, compressed into full rows: each cell is put at the end of its row.
#![tactic(auto)]

mod cells;
pub mod entries;
pub mod rows;
