// Plans: an order and records of groups; and the distances that they keep.
#![tactic(auto)]

pub mod fields;
pub mod lists;

ghost use Rattle.std.specs.Prelude.{◌≡◌};
ghost use Rattle.plan.specs.Sound.{is_distance};

// "all workers, 1 to 16"
pub const MAX_WORKERS: usize = 16;

// "depth is at most 4"
pub const MAX_DEPTH: usize = 4;

// "a list of records .. at most 512"
pub const MAX_GROUPS: usize = 512;

// "k from 1 to 4"
const MAX_DISTANCE: u32 = 4;

// Whether k is a distance that plans are made and checked for.
#[tactic(auto, using(std::proofs::lemmas::Bool::Decides::nat_tests), unfolding(crate::specs::Sound::is_distance))]
pub fn is_distance(k: u32) -> bool
    ensures { result ≡ is_distance k }
{
    1 <= k && k <= MAX_DISTANCE
}
