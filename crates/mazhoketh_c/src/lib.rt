// The calls of `mazhoketh` for C: libmazhoketh.a, declared in include/mazhoketh.h.
#![tactic(auto)]

mod barrier_unit;
mod both;
mod changes;
mod control_number;
mod join;
mod nets;
mod number_lists;
mod picks;
mod prepared_runs;
mod read_plan;
mod runs;
mod surveys;
mod write_plan;
