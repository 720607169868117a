// What is the same for every group of a plan.
ghost use Rattle.std.specs.Prelude.{◌≤◌};
ghost use Rattle.plan.specs.Sound.{max_distance};

use extents::Policy;
use sort::degrees::Ranked;

// The graph with its rows' keys, and what the rules take, a distance that plans are made for.
#[derive(Clone, Copy)]
pub struct Setting<'a> {
    pub ranked: Ranked<'a>,
    pub policy: Policy,
    ghost near: { policy.reach ≤ max_distance },
}
