// A plan by its lists: the order of the rows, and its groups' records in one flat list. The lists may be longer than
// the plan.
use crate::fields::{Group, get};

#[derive(Clone, Copy)]
pub struct Plan<'a> {
    pub order: &'a [u32],
    pub groups: &'a [u32],
    pub count: usize,
}

impl Plan<'_> {
    ghost use Rattle.std.specs.Prelude.{◌≡◌, ◌+◌, ◌*◌, ◌≤◌, length};
    ghost use Rattle.plan.specs.Groups.{width, group_of};
    ghost use Rattle.plan.specs.Code.Checks.{record_at};

    // The record at an index.
    pub fn record(&self, i: usize) -> Group
        requires { width * (i + 1) ≤ length self.now.groups.now }
        ensures { group_of result ≡ record_at self.now.groups.now i }
    {
        get(self.groups, i)
    }
}
