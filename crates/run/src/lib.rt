// The run of a plan: what a load, a store, a wait and a call are, and what holds of every run. The code is in upper,
// layout, waits, steps, machine and calls.
#![tactic(auto)]
