// What a caller lends for a run, in bytes.
use lent::nets::NetBytes;
use lent::plans::PlanBytes;

// A job: a matrix, the movement of each row in four bytes, and a plan.
#[derive(Clone, Copy)]
pub struct JobBytes<'a> {
    pub net: NetBytes<'a>,
    pub movements: &'a [u8],
    pub plan: PlanBytes<'a>,
}

// A run's state, and the sum of each row in eight bytes.
#[derive(Clone, Copy)]
pub struct RunBytes<'a> {
    pub state: &'a [u8],
    pub sums: &'a [u8],
}
