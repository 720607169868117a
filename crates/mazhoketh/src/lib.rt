// The calls of the C interface, on numbers and byte lists; mazhoketh_c exports them.
#![tactic(auto)]

pub mod barrier_unit;
pub mod both;
pub mod changes;
pub mod control_number;
pub mod join;
pub mod nets;
pub mod number_lists;
pub mod picks;
pub mod prepared_runs;
pub mod read_plan;
pub mod runs;
pub mod surveys;
pub mod write_plan;
