// What the rules take besides a group's levels, loads and workers.
ghost use Rattle.std.specs.Prelude.{◌≤◌};

// A colour has at least reach levels, a pair twice as many, and closeness is to be above p per cent.
#[derive(Clone, Copy)]
pub struct Policy {
    pub reach: usize,
    pub p: u32,
    ghost some: { 1 ≤ reach },
    ghost share: { p ≤ 100 },
}
