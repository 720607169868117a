// RACE's recursive distance-2 colouring: what the plan of a matrix is, and that it is sound. The code is in search,
// sort, extents and planner.
#![tactic(auto)]
