// Plan files: a plan's order and groups in bytes, behind a table of contents.
#![tactic(auto)]

mod contents;
mod judge;
pub mod read;
pub mod write;
