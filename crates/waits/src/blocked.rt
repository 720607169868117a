// What is known of the waits while picks are taken.
use plan::{MAX_GROUPS, MAX_WORKERS};

// Which groups are blocked, and for each worker a count up to which this stays so.
#[derive(Drop)]
pub struct Blocked {
    pub blocks: [bool; MAX_GROUPS],
    pub stops: [u32; MAX_WORKERS],
}
