// What is known of the runs of both crews, one beside the other, and a pick on them: its byte is 16 × crew + worker.
use steps::course::Hands;
use waits::blocked::Blocked;

// Which groups are blocked in each crew's run.
#[derive(Drop)]
pub(crate) struct BothBlocked {
    pub(crate) of0: Blocked,
    pub(crate) of1: Blocked,
}

// The updates at hand for each crew.
#[derive(Drop)]
pub(crate) struct BothHands {
    pub(crate) of0: Hands,
    pub(crate) of1: Hands,
}
