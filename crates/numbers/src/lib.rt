// Lists of whole numbers as text, one number a line: read, and written. Numbers stand in bytes, eight each.
#![tactic(auto)]

mod digits;
mod line;
mod low;
mod put;
pub mod read;
mod width;
pub mod write;
