// What the tables of a run hold, and laws on the leaves of flat records. The code is in upper, layout and waits.
#![tactic(auto)]

use matrix::limits::{MAX_CELLS, MAX_ROWS};
use plan::{MAX_GROUPS, MAX_WORKERS};

// A worker's updates: one for each row, and two for each pair of adjacent rows.
pub const MAX_UPDATES: usize = MAX_ROWS + MAX_CELLS;

// Where each worker's updates begin, and where the last one's end.
pub const FIRSTS: usize = MAX_WORKERS + 1;

// The tables of a run: the records of its groups, the access that ends each leaf, where each worker's updates begin,
// the row of each update, where those of a row begin, and the row's leaf.
#[derive(Clone, Copy)]
pub struct Tables<'a> {
    pub groups: &'a [u32],
    pub ends: &'a [u32; MAX_GROUPS],
    pub first: &'a [u32; FIRSTS],
    pub row: &'a [u16; MAX_UPDATES],
    pub begins: &'a [u32; MAX_ROWS],
    pub leaves: &'a [u16; MAX_ROWS],
}

// The upper triangle in plan order: where the part of each row begins, and the positions and entries of the parts.
#[derive(Clone, Copy)]
pub struct Entries<'a> {
    pub parts: &'a [u32; MAX_ROWS],
    pub at: &'a [u16],
    pub beside: &'a [i32],
}
