// The bytes of a plan, as a caller lends them, and the plan that they stand for.
use crate::lists::decode;
use matrix::limits::MAX_ROWS;
use plan::fields::MAX_FIELDS;
use plan::lists::Plan;

// The order of the rows and the records of so many groups, four bytes a number.
#[derive(Clone, Copy)]
pub struct PlanBytes<'a> {
    pub order: &'a [u8],
    pub groups: &'a [u8],
    pub count: u32,
}

impl PlanBytes<'_> {
    ghost use Rattle.lent.specs.Code.Plans.{IsDecoded};

    // The plan, decoded as far as a plan can reach, into arrays of the caller's frame, since there is no heap.
    pub fn decode<'b>(
        &self,
        order: &'b mut [u32; MAX_ROWS],
        groups: &'b mut [u32; MAX_FIELDS],
    ) -> Plan<'b>
        ensures { IsDecoded self.now result }
    {
        Plan {
            order: decode(self.order, order),
            groups: decode(self.groups, groups),
            count: self.count as usize,
        }
    }
}
