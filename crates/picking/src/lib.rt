// Picks by a prepared list, on the bytes of the sums.
#![tactic(auto)]

pub mod forces;
pub mod gates;
pub mod head;
pub mod pick;
pub mod places;
pub mod walk;
